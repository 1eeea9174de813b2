// A search by halving. std has one for slices alone, and the rows of a table are no slice of anything.
ghost use Rattle.std.specs.Prelude.{◌≡◌, ℕ, ◌≤◌, Bool};
ghost use Rattle.words.specs.Seek.{AsksBelow, TellsBelow, FallsBelow, SplitsAt};

// How many of the places below count pass a test, where those that pass stand in front.
pub fn seek<F: Fn(usize) -> bool>(count: usize, before: F) -> usize
    requires { AsksBelow (F.pre before) count }
    ensures bound { result ≤ count }
    ensures split { (p : ℕ → Bool) → TellsBelow (F.post before) p count → FallsBelow p count → SplitsAt p count result }
{
    let mut low = 0;
    let mut high = count;
    while low < high {
        let middle = low + (high - low) / 2;
        if before(middle) {
            low = middle + 1;
        } else {
            high = middle;
        }
    }
    low
}
