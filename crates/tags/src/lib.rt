// Ethernet Tags: which of them are reserved.
#![tactic(auto)]

ghost use Rattle.std.specs.Prelude.{◌≡◌};
ghost use Rattle.tags.specs.Tags.{reserved_tag};

// The reserved tag besides 0.
const LAST_TAG: u32 = 4294967295;

// Whether a tag is reserved: 0 or 4,294,967,295.
#[tactic(auto, unfolding(crate::specs::Tags::reserved_tag))]
pub fn is_reserved(tag: u32) -> bool
    ensures { result ≡ reserved_tag tag }
{
    if tag == 0 {
        return true;
    }
    tag == LAST_TAG
}
