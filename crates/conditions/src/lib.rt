// A test of an element, in place of the Rust's closures.
#![tactic(auto)]

ghost use Rattle.std.specs.Prelude.{◌≡◌};
ghost use Rattle.rules.specs.Conditions.{meets};
ghost use Rattle.conditions.specs.Tests.{test_of};

// What an element is compared with.
// Stays: a closure takes no place of these, since the rules and contracts of calls name them, and C gives one by its
// number.
#[derive(Clone, Copy)]
pub enum Test {
    Below(u32),
    AtLeast(u32),
    Equal(u32),
    NotEqual(u32),
}

// Whether `x` meets the test.
#[tactic(auto, unfolding(crate::specs::Tests::test_of, rules::specs::Conditions::meets))]
pub fn meets(test: Test, x: u32) -> bool
    ensures { result ≡ meets (test_of test) x }
{
    match test {
        Test::Below(k) => x < k,
        Test::AtLeast(k) => k <= x,
        Test::Equal(k) => x == k,
        Test::NotEqual(k) => x != k,
    }
}
