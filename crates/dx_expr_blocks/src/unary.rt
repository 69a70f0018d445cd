//! An operator on the values of one operand.

ghost use Rattle.std.specs.Prelude.{◌≡◌, map};
ghost use Rattle.dx_expr.specs.Value as spec;
ghost use Rattle.dx_expr_blocks.specs.Block.{ended, up_to, decided};
ghost use Rattle.dx_expr_blocks.specs.Found.{IsFound};

use crate::Found;
use crate::steps::{Step, filled};
use dx_expr::{ItemFault, Unary, truth, unary_value};

#[derive(Drop)]
struct OnOne {
    operator: Unary,
}

impl Step for OnOne {
    ghost use Rattle.dx_expr.specs.Value.{unary_value};

    ghost can_step = { λ _ _. Unit {0} };

    ghost gives = { λ s _ v. unary_value s.operator v };

    fn step(&self, _place: usize, value: i32) -> Result<i32, ItemFault> {
        unary_value(self.operator, value)
    }
}

/// An operator on each value of a run.
pub(crate) fn on_each(operator: Unary, operand: Found) -> Found
    ensures { IsFound (ended (up_to (map (spec.unary_value operator) operand.values.items)) operand.fault) result }
{
    let Found { values, fault } = operand;
    let found = filled(&OnOne { operator }, values);
    Found {
        values: found.values,
        fault: found.fault.or(fault),
    }
}

#[derive(Drop)]
struct Decide;

impl Step for Decide {
    ghost use Rattle.dx_expr_blocks.specs.Block.{decided};

    ghost can_step = { λ _ _. Unit {0} };

    ghost gives = { λ _ _ v. decided v };

    fn step(&self, _place: usize, value: i32) -> Result<i32, ItemFault> {
        Ok(truth(value != 0))
    }
}

/// 1 or 0 for each value of a run, as it is true or not.
pub(crate) fn decisions(operand: Found) -> Found
    ensures { IsFound (ended (up_to (map decided operand.values.items)) operand.fault) result }
{
    let Found { values, fault } = operand;
    let found = filled(&Decide, values);
    Found {
        values: found.values,
        fault: found.fault.or(fault),
    }
}
