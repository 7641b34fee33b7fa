//! The rule of the table, and its kinds of step.
use crate::view::{Limits, View};
use atomic_table::{Play, Split, TableRule};

pub(crate) struct ClaimRule;

impl TableRule<(), View, Limits> for ClaimRule {
    ghost use Rattle.aff_claim.specs.Rule.{IsClaimTable};
    ghost use Rattle.aff_claim.specs.Views.{first_view};

    ghost holds = { IsClaimTable };

    ghost first = { first_view };
}

/// The book draws a number.
pub(crate) struct Register;

impl Play<(), View> for Register {
    ghost use Rattle.aff_claim.specs.Steps.{registers};

    ghost then = { registers };
}

/// The number goes to a new pass.
pub(crate) struct Newcomer;

impl Split<View> for Newcomer {
    ghost use Rattle.aff_claim.specs.Views.{given, newcomer};

    ghost left = { given };

    ghost right = { newcomer };
}

/// A pass draws a turn from the cursor.
pub(crate) struct Turn;

impl Play<(), View> for Turn {
    ghost use Rattle.aff_claim.specs.Steps.{turns};

    ghost then = { turns };
}

/// A pass tries to claim an extent.
pub(crate) struct Claim;

impl Play<(), View> for Claim {
    ghost use Rattle.aff_claim.specs.Steps.{claims};

    ghost then = { claims };
}

/// A pass loads a claim word.
pub(crate) struct Load;

impl Play<(), View> for Load {
    ghost use Rattle.aff_claim.specs.Steps.{loads};

    ghost then = { loads };
}

/// The book loads a claim word.
pub(crate) struct BookLoad;

impl Play<(), View> for BookLoad {
    ghost use Rattle.aff_claim.specs.Steps.{book_loads};

    ghost then = { book_loads };
}

/// The book publishes an extent.
pub(crate) struct Publish;

impl Play<(), View> for Publish {
    ghost use Rattle.aff_claim.specs.Steps.{publishes};

    ghost then = { publishes };
}

/// The book claims an extent for the sweep.
pub(crate) struct Sweep;

impl Play<(), View> for Sweep {
    ghost use Rattle.aff_claim.specs.Steps.{sweeps};

    ghost then = { sweeps };
}

/// A pass asks for an extent.
pub(crate) struct Raise;

impl Play<(), View> for Raise {
    ghost use Rattle.aff_claim.specs.Steps.{raises};

    ghost then = { raises };
}

/// A pass loads a demand word.
pub(crate) struct DemandLoad;

impl Play<(), View> for DemandLoad {
    ghost use Rattle.aff_claim.specs.Steps.{demand_loads};

    ghost then = { demand_loads };
}
