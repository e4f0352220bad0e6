// Lists of shapes, put together without repeats.
ghost use Rattle.std.specs.Prelude.{◌≡◌, [], ◌++◌, length, map, reverse, IfOk, OnOk};
ghost use Rattle.sled_model.specs.Shapes.{chain_shape, both_shape, loose_shape, each_with};
ghost use Rattle.pattern_shapes.specs.Forms.{SameMembers, IsOnce, with_shape, with_shapes, joint_shape};

use crate::compare::has;
use sled_base::NoMemory;
use sled_model::{Shape, ShapeList};
use sqlite_items::Items;
use std::alloc::Global;

/// How the shapes of two patterns are joined.
#[derive(Clone, Copy)]
pub enum Joint {
    /// Both stand at one place.
    Both,
    /// The second stands where the first ends.
    Chain,
}

/// Adds the shape, where it is not in the list yet.
fn add_shape(shapes: &mut ShapeList, shape: Shape) -> Result<(), NoMemory>
    ensures { OnOk result (shapes.new ≡ with_shape shapes.old shape) }
{
    if has(shapes.as_slice(), &shape) {
        return Ok(());
    }
    shapes.push(shape)?;
    Ok(())
}

/// Adds those of the other list, from its end on, that are not in the list yet: where no shape stood twice, none does now. On
/// `NoMemory` it has added some of them.
pub fn add_shapes(shapes: &mut ShapeList, mut more: ShapeList) -> Result<(), NoMemory>
    ensures value { OnOk result (shapes.new ≡ with_shapes shapes.old (reverse more)) }
    ensures members { OnOk result (SameMembers shapes.new (shapes.old ++ more)) }
    ensures once { OnOk result (IsOnce shapes.old → IsOnce shapes.new) }
{
    while let Some(shape) = more.pop() {
        add_shape(shapes, shape)?;
    }
    Ok(())
}

/// The shapes, from the end on, each made loose.
pub fn loose_shapes(alloc: Global, mut shapes: ShapeList) -> Result<ShapeList, NoMemory>
    ensures { IfOk result (λ found. found ≡ with_shapes [] (map loose_shape (reverse shapes))) }
{
    let mut found = Items::new(alloc);
    while let Some(shape) = shapes.pop() {
        add_shape(
            &mut found,
            Shape {
                classes: shape.classes,
                loose: true,
            },
        )?;
    }
    Ok(found)
}

fn both_moved(a: Shape, b: Shape) -> Shape
    ensures { result ≡ both_shape a b }
{
    let loose = a.loose && b.loose;
    if a.classes.len() < b.classes.len() {
        Shape {
            classes: b.classes,
            loose,
        }
    } else {
        Shape {
            classes: a.classes,
            loose,
        }
    }
}

fn chain_moved(a: Shape, b: Shape) -> Result<Shape, NoMemory>
    ensures { IfOk result (λ shape. shape ≡ chain_shape a b) }
{
    let Shape { mut classes, .. } = a;
    classes.append(b.classes)?;
    Ok(Shape {
        classes,
        loose: b.loose,
    })
}

/// The two shapes as one, made of their parts.
fn joined_moved(joint: Joint, a: Shape, b: Shape) -> Result<Shape, NoMemory>
    ensures { IfOk result (λ shape. shape ≡ joint_shape joint a b) }
{
    match joint {
        Joint::Both => Ok(both_moved(a, b)),
        Joint::Chain => chain_moved(a, b),
    }
}

fn copy_shape(alloc: Global, shape: &Shape) -> Result<Shape, NoMemory>
    ensures { IfOk result (λ copy. copy ≡ shape.now) }
{
    Ok(Shape {
        classes: Items::from_slice(alloc, shape.classes.as_slice())?,
        loose: shape.loose,
    })
}

/// The two shapes as one.
fn joined(alloc: Global, joint: Joint, a: &Shape, b: &Shape) -> Result<Shape, NoMemory>
    ensures { IfOk result (λ shape. shape ≡ joint_shape joint a.now b.now) }
{
    let a = copy_shape(alloc, a)?;
    let b = copy_shape(alloc, b)?;
    joined_moved(joint, a, b)
}

/// A copy of the list.
pub fn copy_shapes(alloc: Global, shapes: &[Shape]) -> Result<ShapeList, NoMemory>
    ensures { IfOk result (λ copy. copy ≡ shapes.now) }
{
    let mut copy = Items::new(alloc);
    for shape in shapes {
        copy.push(copy_shape(alloc, shape)?)?;
    }
    Ok(copy)
}

/// A copy of the list, in which each shape stands once.
pub fn distinct_shapes(alloc: Global, shapes: &[Shape]) -> Result<ShapeList, NoMemory>
    ensures { IfOk result (λ found. found ≡ with_shapes [] shapes.now) }
{
    let mut found = Items::new(alloc);
    for shape in shapes {
        add_shape(&mut found, copy_shape(alloc, shape)?)?;
    }
    Ok(found)
}

/// Adds the shape joined with each of the seconds.
fn add_joined(
    alloc: Global,
    joint: Joint,
    found: &mut ShapeList,
    a: &Shape,
    seconds: &[Shape],
) -> Result<(), NoMemory>
    ensures { OnOk result (found.new ≡ with_shapes found.old (map (joint_shape joint a.now) seconds.now)) }
{
    for b in seconds {
        add_shape(found, joined(alloc, joint, a, b)?)?;
    }
    Ok(())
}

fn all_joined(
    alloc: Global,
    joint: Joint,
    firsts: &[Shape],
    seconds: &[Shape],
) -> Result<ShapeList, NoMemory>
    ensures { IfOk result (λ found. found ≡ with_shapes [] (each_with (joint_shape joint) firsts.now seconds.now)) }
{
    let mut found = Items::new(alloc);
    for a in firsts {
        add_joined(alloc, joint, &mut found, a, seconds)?;
    }
    Ok(found)
}

/// Of two lists of one shape, the two as one.
fn one_joined(
    joint: Joint,
    mut firsts: ShapeList,
    mut seconds: ShapeList,
) -> Result<ShapeList, NoMemory>
    requires first { length firsts ≡ 1 }
    requires second { length seconds ≡ 1 }
    ensures { IfOk result (λ found. found ≡ with_shapes [] (each_with (joint_shape joint) firsts seconds)) }
{
    let Some(a) = firsts.pop() else {
        return Ok(firsts);
    };
    let Some(b) = seconds.pop() else {
        return Ok(firsts);
    };
    firsts.push(joined_moved(joint, a, b)?)?;
    Ok(firsts)
}

/// Each of the firsts joined with each of the seconds. Where each list has one shape, nothing of the first is copied.
pub fn join(
    alloc: Global,
    joint: Joint,
    firsts: ShapeList,
    seconds: ShapeList,
) -> Result<ShapeList, NoMemory>
    ensures { IfOk result (λ found. found ≡ with_shapes [] (each_with (joint_shape joint) firsts seconds)) }
{
    if firsts.len() == 1 && seconds.len() == 1 {
        return one_joined(joint, firsts, seconds);
    }
    all_joined(alloc, joint, firsts.as_slice(), seconds.as_slice())
}
