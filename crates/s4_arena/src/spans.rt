//! How far back jumps go.

ghost use Rattle.std.specs.Prelude.{◌≡◌, ◌+◌, ◌^◌, ◌<◌};
ghost use Rattle.s4_arena.specs.Spans.{span_at, span_of};

/// How far back the jump of the item with that number goes.
pub(crate) fn span(number: usize) -> usize
    requires { 0 < number }
    ensures { result ≡ span_of number }
{
    let zeros = number.leading_zeros();
    let mut span = usize::MAX >> zeros;
    let mut left = number;
    while left != span {
        span /= 2;
        if left > span {
            left -= span;
        }
    }
    span
}

/// How far back the jump of the item at an index goes, where so many items were dropped before the
/// oldest. It is more than the index, and so leads to no item that is kept, where the number of the
/// item doesn't fit.
pub(crate) fn index_span(first: usize, index: usize) -> usize
    requires { index + 1 < 2 ^ 64 }
    ensures { result ≡ span_at first index }
{
    let behind = index + 1;
    match first.checked_add(behind) {
        Some(number) => span(number),
        None => behind,
    }
}
