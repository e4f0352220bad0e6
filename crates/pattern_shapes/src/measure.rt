// What is asked of the shapes that a whole pattern has.
ghost use Rattle.std.specs.Prelude.{◌≡◌, ◌&&◌, nat_le};
ghost use Rattle.sled_model.specs.Shapes.{are_closed, lengths_within as lengths_within_of, class_bytes as class_bytes_of, shape_bytes};

use sled_model::Shape;
use token_bits::{ClassId, Tokens};

/// Whether none of the shapes is loose.
pub fn is_closed(shapes: &[Shape]) -> bool
    ensures { result ≡ are_closed shapes.now }
{
    shapes.iter().all(|shape| !shape.loose)
}

fn class_bytes(tokens: &Tokens, class: ClassId) -> usize
    ensures { result ≡ class_bytes_of tokens.now class }
{
    match tokens.class(class) {
        Some(class) => class.byte_count(),
        None => 0,
    }
}

/// Whether an alternative of the shape has so many bytes at least, and so many at most.
fn length_within(tokens: &Tokens, shape: &Shape, least: usize, most: usize) -> bool
    ensures { result ≡ (nat_le least (shape_bytes tokens.now shape.now) && nat_le (shape_bytes tokens.now shape.now) most) }
{
    let mut left = most;
    for class in shape.classes.as_slice() {
        let bytes = class_bytes(tokens, *class);
        if left < bytes {
            return false;
        }
        left -= bytes;
    }
    least <= most - left
}

/// Whether every alternative of these shapes has so many bytes at least, and so many at most.
pub fn lengths_within(tokens: &Tokens, shapes: &[Shape], least: usize, most: usize) -> bool
    ensures { result ≡ lengths_within_of least most tokens.now shapes.now }
{
    shapes
        .iter()
        .all(|shape| length_within(tokens, shape, least, most))
}
