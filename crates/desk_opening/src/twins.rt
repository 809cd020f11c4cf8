//! Feeds of one book.
ghost use Rattle.std.specs.Prelude.{ℕ, ◌≡◌, ◌≢◌, ◌<◌, ◌≤◌, length, AllPairs, IfSome, IfNone};
ghost use Rattle.desk_opening.specs.Twins.{books_of, book_at, AreFirstTwinBooks};

use feed_definitions::Header;

/// The first two feeds of one book: the later one is the first whose book stands earlier, and the earlier one the first of that book.
/// O(feeds^2) comparisons of names.
pub fn first_twins(headers: &[Header]) -> Option<(u8, u8)>
    requires { length headers.now ≤ 8 }
    ensures twins { IfSome result (λ twins. AreFirstTwinBooks (books_of headers.now) twins.0 twins.1) }
    ensures different { IfNone result (AllPairs (λ book other. book ≢ other) (books_of headers.now)) }
{
    for later in 0..headers.len() {
        if let Some(earlier) = twin_before(headers, later) {
            return Some((earlier as u8, later as u8));
        }
    }
    None
}

// The first feed before this one that is of its book.
fn twin_before(headers: &[Header], later: usize) -> Option<usize>
    requires { later < length headers.now }
    ensures order { IfSome result (λ earlier. earlier < later) }
    ensures one { IfSome result (λ earlier. book_at (books_of headers.now) earlier ≡ book_at (books_of headers.now) later) }
    ensures none { IfNone result ((a : ℕ) → a < later → book_at (books_of headers.now) a ≢ book_at (books_of headers.now) later) }
{
    for earlier in 0..later {
        if headers[earlier].book == headers[later].book {
            return Some(earlier);
        }
    }
    None
}
