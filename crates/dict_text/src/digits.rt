// The numbers of a dictd index: offsets and lengths in base 64.
//
// The digits `A-Z a-z 0-9 + /` stand for 0 to 63, the most significant comes first, and there is no
// padding. `A` is 0, and no other number begins with `A`. No call takes memory.
/// The most digits that a number has.
pub const MAX_DIGITS: usize = 6;
