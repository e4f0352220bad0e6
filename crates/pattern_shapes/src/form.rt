// What is said of the shapes of a pattern.
ghost use Rattle.std.specs.Prelude.{◌≡◌, ◌&&◌, [], true, reverse, map, IfOk};
ghost use Rattle.sled_model.specs.declared.pattern.Pattern.{Pattern};
ghost use Rattle.sled_model.specs.Shapes.{ShapeContext, shapes as shapes_of, loose_shape, chain_shape, both_shape, each_with, all_agree as all_agree_of, are_closed, are_one_shape as are_one_shape_of, lengths_within as lengths_within_of};
ghost use Rattle.pattern_shapes.specs.Forms.{with_shapes, IsFormOf};

use crate::compare::{all_agree, are_one_shape};
use crate::join::{Joint, add_shapes, join, loose_shapes};
use crate::measure::{is_closed, lengths_within};
use sled_base::NoMemory;
use sled_model::ShapeList;
use std::alloc::Global;
use token_bits::Tokens;

/// The shapes of a pattern, each once and in no order, and whether they are as the language asks.
#[derive(Debug, Drop)]
pub struct Form {
    pub shapes: ShapeList,
    /// In each conjunction, every alternative of one side agrees with every alternative of the other.
    pub agree: bool,
    /// In each chain, what stands before a `;` is loose in no alternative.
    pub closed: bool,
    /// In each disjunction, all alternatives have one shape.
    pub alike: bool,
}

impl Form {
    /// Whether the whole pattern is loose in no alternative.
    pub fn is_closed(&self) -> bool
        ensures value { result ≡ are_closed self.now.shapes }
        ensures of_pattern { (cx : ShapeContext) (p : Pattern) → IsFormOf cx p self.now → result ≡ are_closed (shapes_of cx p) }
    {
        is_closed(self.shapes.as_slice())
    }

    /// Whether every alternative of the pattern has so many bytes at least, and so many at most.
    pub fn lengths_within(&self, tokens: &Tokens, least: usize, most: usize) -> bool
        ensures value { result ≡ lengths_within_of least most tokens.now self.now.shapes }
        ensures of_pattern { (cx : ShapeContext) (p : Pattern) → IsFormOf cx p self.now → result ≡ lengths_within_of least most tokens.now (shapes_of cx p) }
    {
        lengths_within(tokens, self.shapes.as_slice(), least, most)
    }

    /// The form of a pattern of these shapes in which there is nothing to ask.
    pub(crate) fn plain(shapes: ShapeList) -> Form
        ensures { result ≡ record { shapes = shapes; agree = true; closed = true; alike = true } }
    {
        Form {
            shapes,
            agree: true,
            closed: true,
            alike: true,
        }
    }

    /// The form of this and the next pattern at one place.
    pub(crate) fn both(self, alloc: Global, next: Form) -> Result<Form, NoMemory>
        ensures shapes { IfOk result (λ form. form.shapes ≡ with_shapes [] (each_with both_shape self.shapes next.shapes)) }
        ensures agree { IfOk result (λ form. form.agree ≡ (self.agree && (next.agree && all_agree_of self.shapes next.shapes))) }
        ensures closed { IfOk result (λ form. form.closed ≡ (self.closed && next.closed)) }
        ensures alike { IfOk result (λ form. form.alike ≡ (self.alike && next.alike)) }
    {
        let agree = self.agree
            && next.agree
            && all_agree(self.shapes.as_slice(), next.shapes.as_slice());
        let closed = self.closed && next.closed;
        let alike = self.alike && next.alike;
        let shapes = join(alloc, Joint::Both, self.shapes, next.shapes)?;
        Ok(Form {
            shapes,
            agree,
            closed,
            alike,
        })
    }

    /// The form of this or the next pattern, where it is not asked yet whether their shapes are one.
    pub(crate) fn either(self, next: Form) -> Result<Form, NoMemory>
        ensures shapes { IfOk result (λ form. form.shapes ≡ with_shapes self.shapes (reverse next.shapes)) }
        ensures agree { IfOk result (λ form. form.agree ≡ (self.agree && next.agree)) }
        ensures closed { IfOk result (λ form. form.closed ≡ (self.closed && next.closed)) }
        ensures alike { IfOk result (λ form. form.alike ≡ (self.alike && next.alike)) }
    {
        let agree = self.agree && next.agree;
        let closed = self.closed && next.closed;
        let alike = self.alike && next.alike;
        let mut shapes = self.shapes;
        add_shapes(&mut shapes, next.shapes)?;
        Ok(Form {
            shapes,
            agree,
            closed,
            alike,
        })
    }

    /// The form of a disjunction, of which this is known but for whether its shapes are one.
    pub(crate) fn asked_alike(self) -> Form
        ensures { result ≡ record self { alike = self.alike && are_one_shape_of self.shapes } }
    {
        let alike = self.alike && are_one_shape(self.shapes.as_slice());
        Form {
            shapes: self.shapes,
            agree: self.agree,
            closed: self.closed,
            alike,
        }
    }

    /// The form of this and then the next pattern, where it is known whether all before the next is closed.
    pub(crate) fn chain(self, alloc: Global, before: bool, next: Form) -> Result<Form, NoMemory>
        ensures shapes { IfOk result (λ form. form.shapes ≡ with_shapes [] (each_with chain_shape self.shapes next.shapes)) }
        ensures agree { IfOk result (λ form. form.agree ≡ (self.agree && next.agree)) }
        ensures closed { IfOk result (λ form. form.closed ≡ (self.closed && (next.closed && before))) }
        ensures alike { IfOk result (λ form. form.alike ≡ (self.alike && next.alike)) }
    {
        let agree = self.agree && next.agree;
        let closed = self.closed && next.closed && before;
        let alike = self.alike && next.alike;
        let shapes = join(alloc, Joint::Chain, self.shapes, next.shapes)?;
        Ok(Form {
            shapes,
            agree,
            closed,
            alike,
        })
    }

    /// The form of this, made loose.
    pub(crate) fn loosened(self, alloc: Global) -> Result<Form, NoMemory>
        ensures shapes { IfOk result (λ form. form.shapes ≡ with_shapes [] (map loose_shape (reverse self.shapes))) }
        ensures agree { IfOk result (λ form. form.agree ≡ self.agree) }
        ensures closed { IfOk result (λ form. form.closed ≡ self.closed) }
        ensures alike { IfOk result (λ form. form.alike ≡ self.alike) }
    {
        Ok(Form {
            shapes: loose_shapes(alloc, self.shapes)?,
            agree: self.agree,
            closed: self.closed,
            alike: self.alike,
        })
    }
}
