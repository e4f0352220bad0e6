// What the body of a constructor bound, among the description and its plans.
ghost use Rattle.std.specs.Prelude.{◌≡◌, slice_get, Some, IfOk};
ghost use Rattle.sled_model.specs.Instances.{Means};
ghost use Rattle.instance_reading.specs.Plans.{IsBodyPlan};
ghost use Rattle.instance_reading.specs.Operands.{AreNumbersOf, IsOperandAt};
ghost use Rattle.instance_reading.specs.Bound.{entries_of, IsBound, IfDeclared, IsKindAt, IsChosen};
ghost use Rattle.instance_reading.specs.Reading.{IsMeant};

use crate::entry_values::{choice_for, read_addresses, read_values};
use crate::place::Place;
use crate::plans::{BodyPlan, Plans};
use crate::scratch::Scratch;
use pattern_normal::Spot;
use sled_base::NoMemory;
use sled_model::{Constructor, ConstructorId, Instance, Operand, OperandKind, OperandList, TypeId};
use sqlite_items::{Boxed, Items};
use std::alloc::Global;

/// What a result of a constructor's body bound, in a match at a place: spots of the place's window.
#[derive(Clone, Copy)]
pub(crate) struct Bound<'a> {
    pub(crate) place: Place<'a>,
    pub(crate) plans: &'a Plans,
    pub(crate) constructor: ConstructorId,
    pub(crate) spots: &'a [Spot],
}

impl<'a> Bound<'a> {
    /// The constructor.
    pub(crate) fn declared(&self) -> &'a Constructor
        requires { IsBound self.now }
        ensures { slice_get self.now.place.spec.now.constructors self.now.constructor.0 ≡ Some result.now }
    {
        &self.place.spec.constructors.as_slice()[self.constructor.0 as usize]
    }

    /// The plan of the constructor.
    pub(crate) fn plan(&self) -> &'a BodyPlan
        requires { IsBound self.now }
        ensures { IfDeclared self.now (λ c. IsBodyPlan self.now.place.spec.now.tokens c result.now) }
    {
        &self.plans.each.as_slice()[self.constructor.0 as usize]
    }

    /// The number of each operand: 0 for one that is an instance.
    pub(crate) fn numbers(
        &self,
        alloc: Global,
        scratch: &mut Scratch,
    ) -> Result<Items<i64>, NoMemory>
        requires { IsBound self.now }
        ensures { IfOk result (λ numbers. IfDeclared self.now (λ c. AreNumbersOf self.now.place.spec.now.tokens c self.now.place.location (entries_of self.now) numbers)) }
    {
        let plan = self.plan();
        let operands = self.declared().operands.len();
        let count = plan.labels.len();
        read_values(
            &mut scratch.fields,
            &self.place.spec.tokens,
            self.place.window,
            self.spots,
        )?;
        read_addresses(&mut scratch.labels, self.place.location, self.spots, count)?;
        let fields = scratch.fields.as_slice();
        let labels = scratch.labels.as_slice();
        plan.numbers(alloc, fields, labels, operands)
    }

    /// What the body of the constructor bound that was chosen for this operand, an instance.
    pub(crate) fn chosen(&self, operand: usize, of: TypeId) -> Bound<'a>
        requires bound { IsBound self.now }
        requires kind { IsKindAt self.now operand (OperandKind.Typed of) }
        ensures { IsChosen self.now operand result }
    {
        let standing = self.plan().standing.as_slice();
        let Some(choice) = choice_for(standing, self.spots, operand) else {
            unreachable!()
        };
        match choice {
            Spot::Value { .. } => unreachable!(),
            Spot::Mark { .. } => unreachable!(),
            Spot::Choice {
                constructor,
                inner,
                ..
            } => Bound {
                place: self.place,
                plans: self.plans,
                constructor: *constructor,
                spots: inner.entries.as_slice(),
            },
        }
    }

    /// The operand of this number and kind, which has this number if it is one.
    #[cycle(instance)]
    fn operand(
        &self,
        alloc: Global,
        scratch: &mut Scratch,
        operand: usize,
        kind: OperandKind,
        number: i64,
    ) -> Result<Operand, NoMemory>
        requires bound { IsBound self.now }
        requires kind { IsKindAt self.now operand kind }
        ensures { IfOk result (λ o. IfDeclared self.now (λ c. IsOperandAt self.now.place.spec.now self.now.place.location c (entries_of self.now) operand kind number o)) }
    {
        match kind {
            OperandKind::Typed(of) => {
                let inner = self.chosen(operand, of).instance(alloc, scratch)?;
                Ok(Operand::Sub(Boxed::new(alloc, inner)?))
            }
            OperandKind::Plain(_)
            | OperandKind::Extended(_)
            | OperandKind::Whole
            | OperandKind::Sliced => Ok(Operand::Num(number)),
        }
    }

    /// The operands, in order.
    #[cycle(instance)]
    fn operands(&self, alloc: Global, scratch: &mut Scratch) -> Result<OperandList, NoMemory>
        requires { IsBound self.now }
        ensures { IfOk result (λ os. Means self.now.place.spec.now self.now.place.location (entries_of self.now) (record { constructor = self.now.constructor; operands = os })) }
    {
        let numbers = self.numbers(alloc, scratch)?;
        let numbers = numbers.as_slice();
        let kinds = self.declared().operands.as_slice();
        let mut operands = Items::new(alloc);
        for (operand, kind) in kinds.iter().enumerate() {
            let read = self.operand(alloc, scratch, operand, *kind, numbers[operand])?;
            operands.push(read)?;
        }
        Ok(operands)
    }

    /// The instance.
    #[cycle(instance)]
    pub(crate) fn instance(
        &self,
        alloc: Global,
        scratch: &mut Scratch,
    ) -> Result<Instance, NoMemory>
        requires { IsBound self.now }
        ensures { IfOk result (IsMeant self.now.place.spec.now self.now.place.location self.now.constructor (entries_of self.now)) }
    {
        let operands = self.operands(alloc, scratch)?;
        Ok(Instance {
            constructor: self.constructor,
            operands,
        })
    }
}
