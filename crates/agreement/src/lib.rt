// The algorithm and the AC-DF bit that an election goes by: what all routes of the table agree on.
#![tactic(auto)]

ghost use Rattle.std.specs.Prelude.{◌≡◌, ◌<◌, length, get_or};
ghost use Rattle.layout.specs.Table.{no_entry};
ghost use Rattle.layout.specs.Words.{kind_of, table_in, Valid};
ghost use Rattle.settings.specs.Settings.{settings_in, ValidSettings};
ghost use Rattle.agreement.specs.Agreement.{usable, in_use_with};
ghost use Rattle.agreement.specs.Steps.{all_of_kind};

// The algorithm and the AC-DF bit in use.
#[derive(Clone, Copy)]
pub struct InUse {
    pub algorithm: u8,
    pub ac_df: bool,
}

// Algorithm 0 without AC-DF.
const FALLBACK: InUse = InUse {
    algorithm: 0,
    ac_df: false,
};

// Whether all entries are of the kind of the first. All of them are looked at, which the compiler makes several looks at once: what differs anywhere leaves a bit
// in `differ`.
fn all_of_one_kind(t: &[u32]) -> bool
    requires { Valid t.now × (0 < length (table_in t.now).entries) }
    ensures { result ≡ all_of_kind (kind_of (get_or (table_in t.now).entries 0 no_entry)) (table_in t.now).entries }
{
    let n = layout::count(t);
    let first = layout::attributes_at(t, 0);
    let mut differ = 0;
    for i in 0..n {
        differ |= layout::attributes_at(t, i) ^ first;
    }
    layout::kind_of(differ) == 0
}

// Whether all routes may agree on an algorithm: 0 to 3, or a number that is set.
#[tactic(auto, unfolding(crate::specs::Agreement::usable))]
fn may_agree(settings: &[u32], algorithm: u32) -> bool
    requires { ValidSettings settings.now }
    ensures { result ≡ usable (settings_in settings.now) algorithm }
{
    if algorithm < 4 {
        return true;
    }
    settings::is_set(settings, algorithm)
}

// The algorithm in use: that of all routes, if they carry one algorithm from 0 to 3, or one that is set, and one AC-DF bit; otherwise 0 without AC-DF.
// DP and preference are not compared.
pub fn in_use(t: &[u32], settings: &[u32]) -> InUse
    requires { Valid t.now × ValidSettings settings.now }
    ensures { result ≡ in_use_with (settings_in settings.now) (table_in t.now).entries }
{
    if layout::count(t) == 0 {
        return FALLBACK;
    }
    let kind = layout::kind_at(t, 0);
    if !may_agree(settings, kind / 2) {
        return FALLBACK;
    }
    if !all_of_one_kind(t) {
        return FALLBACK;
    }
    let algorithm = (kind / 2) as u8;
    InUse {
        algorithm,
        ac_df: kind % 2 == 1,
    }
}
