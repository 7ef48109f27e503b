// A test of an element, as C asks for it: its kind, and the number that an element is compared with.
ghost use Rattle.std.specs.Prelude.{◌≡◌};
ghost use Rattle.replies.specs.Kinds.{test_in, of_asked};

use conditions::Test;

// The four tests, by number: 1 below k, 2 at least k, 3 equal to k, 4 not equal to k.
#[tactic(auto, unfolding(crate::specs::Kinds::test_in, conditions::specs::Tests::test_of))]
pub fn test_of_kind(kind: u32, k: u32) -> Option<Test>
    ensures { of_asked result ≡ test_in kind k }
{
    match kind {
        1 => Some(Test::Below(k)),
        2 => Some(Test::AtLeast(k)),
        3 => Some(Test::Equal(k)),
        4 => Some(Test::NotEqual(k)),
        _ => None,
    }
}
