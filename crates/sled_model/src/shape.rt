// Shapes of patterns.

use sqlite_items::Items;
use token_bits::ClassId;

pub type ClassIdList = Items<ClassId>;

/// The shape of one alternative of a pattern: the classes of its tokens, from left to right, and whether it is loose, so that a
/// longer one may stand beside it.
#[derive(Debug, Drop)]
pub struct Shape {
    pub classes: ClassIdList,
    pub loose: bool,
}

pub type ShapeList = Items<Shape>;
