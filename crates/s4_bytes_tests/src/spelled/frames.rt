//! Frames at their borders.

/// The most bytes that a body may have, bytes in hexadecimal digits, and what stands at their front.
pub const FRONTS: &str = "\
8192 |Part;
8192 000000|Part;
8192 0000000201|Part;
8192 00002000|Part;
8192 00000000|BadLength;
8192 00002001|BadLength;
8192 ffffffff|BadLength;
8192 00000002010000|Whole { body: [1, 0], rest: [0] };
131072 00020000|Part;
131072 00020001|BadLength;
2 00000002010000|Whole { body: [1, 0], rest: [0] };
1 00000002010000|BadLength";
