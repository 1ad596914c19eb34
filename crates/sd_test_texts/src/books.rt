/// The book that examples/day.sh makes from accounts.txt: leaf 5 is revoked in its second and last period.
pub const BOOK: &str = "period\nrevoke 5\n";
