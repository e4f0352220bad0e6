// Shapes, compared.
ghost use Rattle.std.specs.Prelude.{◌≡◌};
ghost use Rattle.std.specs.List.{list_all};
ghost use Rattle.sled_model.specs.Shapes.{is_front as is_front_of, are_same_classes as are_same_classes_of, is_same_shape as is_same_shape_of, shapes_agree as shapes_agree_of, all_agree as all_agree_of, are_one_shape as are_one_shape_of};
ghost use Rattle.pattern_shapes.specs.Forms.{has as has_of};

use sled_model::Shape;
use token_bits::ClassId;

/// Whether the first list is a front of the second.
fn is_front(front: &[ClassId], whole: &[ClassId]) -> bool
    ensures { result ≡ is_front_of front.now whole.now }
{
    for (i, class) in front.iter().enumerate() {
        let Some(other) = whole.get(i) else {
            return false;
        };
        if other.0 != class.0 {
            return false;
        }
    }
    true
}

fn are_same_classes(a: &[ClassId], b: &[ClassId]) -> bool
    ensures { result ≡ are_same_classes_of a.now b.now }
{
    a.len() == b.len() && is_front(a, b)
}

fn is_same_shape(a: &Shape, b: &Shape) -> bool
    ensures { result ≡ is_same_shape_of a.now b.now }
{
    a.loose == b.loose && are_same_classes(a.classes.as_slice(), b.classes.as_slice())
}

/// Whether the shape is in the list.
pub fn has(shapes: &[Shape], shape: &Shape) -> bool
    ensures { result ≡ has_of shapes.now shape.now }
{
    shapes.iter().any(|other| is_same_shape(shape, other))
}

fn shapes_agree(a: &Shape, b: &Shape) -> bool
    ensures { result ≡ shapes_agree_of a.now b.now }
{
    let (one, other) = (a.classes.as_slice(), b.classes.as_slice());
    match (a.loose, b.loose) {
        (true, true) => is_front(one, other) || is_front(other, one),
        (true, false) => is_front(one, other),
        (false, true) => is_front(other, one),
        (false, false) => are_same_classes(one, other),
    }
}

fn agrees_with_all(a: &Shape, shapes: &[Shape]) -> bool
    ensures { result ≡ list_all (shapes_agree_of a.now) shapes.now }
{
    shapes.iter().all(|b| shapes_agree(a, b))
}

/// Whether each of the one list agrees with each of the other.
pub fn all_agree(firsts: &[Shape], seconds: &[Shape]) -> bool
    ensures { result ≡ all_agree_of firsts.now seconds.now }
{
    firsts.iter().all(|a| agrees_with_all(a, seconds))
}

fn is_all_of(shapes: &[Shape], shape: &Shape) -> bool
    ensures { result ≡ list_all (is_same_shape_of shape.now) shapes.now }
{
    shapes.iter().all(|other| is_same_shape(shape, other))
}

/// Whether all of the shapes are one.
pub fn are_one_shape(shapes: &[Shape]) -> bool
    ensures { result ≡ are_one_shape_of shapes.now }
{
    let Some((first, rest)) = shapes.split_first() else {
        return true;
    };
    is_all_of(rest, first)
}
