// The limits of the language and of the program.

/// The most bytes that a description or a statement may have.
pub const MAX_TEXT: u32 = 1_048_576;

/// The most brackets that may stand inside one another.
pub const MAX_NESTING: u32 = 64;

/// The most bytes of a match, and of an encoding.
pub const MAX_MATCH: u32 = 32;

/// The most that a constructor or an arm may weigh.
pub const MAX_WEIGHT: u32 = 4_096;

/// The most that all arms of a statement may weigh together.
pub const MAX_STATEMENT_WEIGHT: u32 = 16_384;

/// The greatest size of a constructor or an arm.
pub const MAX_SIZE: u32 = 256;

/// The most operands of a constructor.
pub const MAX_OPERANDS: u32 = 16;

/// The most equations of a constructor.
pub const MAX_EQUATIONS: u32 = 32;

/// The most terms of an equation, on both sides together.
pub const MAX_TERMS: u32 = 16;

/// The greatest coefficient; the least is 1.
pub const MAX_COEFFICIENT: u32 = 65_536;

/// The most bits that a decision graph tests on one path.
pub const MAX_TESTED_BITS: u32 = 16;

/// The greatest Number of a text.
pub const MAX_NUMBER: u32 = 4_294_967_295;

/// The greatest location; the least is 0.
pub const MAX_LOCATION: u32 = 4_294_967_295;

/// The most bytes of an assembly line, without its end.
pub const MAX_LINE: u32 = 1_024;

/// The most lines of an assembly text.
pub const MAX_LINES: u32 = 4_294_967_295;

/// The most words of a drill.
pub const MAX_DRILL: u32 = 1_000_000;
