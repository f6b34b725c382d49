// The search for the smallest record that breaks a rule.
ghost use Rattle.std.specs.Prelude.{◌≡◌, ℕ, ◌≤◌, Bool};
ghost use Rattle.std.specs.Iterator.{ActsAs};
ghost use Rattle.structure.specs.Search.{first_of};

// The smallest of the head and n records that is broken.
pub fn first_broken<F: Fn(u16) -> bool>(n: u16, is_broken: F) -> Option<u16>
    requires few { n ≤ 2000 }
    requires callable { (f : _) (i : _) → F.FnMut.pre f i }
    ensures { (broken : ℕ → Bool) → ActsAs F.FnMut is_broken broken → result ≡ first_of broken n }
{
    (0..n + 1).find(|record| is_broken(*record))
}
