//! What a network is told once, for contracts alone.
use std::marker::Brand;

/// The stamps of a network, the owner of each channel, and its links as the rules see them.
///
/// Of what lies under a lock only its type's invariant is known. So the types that have to agree on these three are
/// generic in a `Home`. One call picks it: it passes `Brand` to a function that names no `Home` in its signature's types.
pub trait Home {
    ghost use Rattle.std.specs.Prelude.{List};
    ghost use Rattle.atomic_table.specs.Seated.{TableId};
    ghost use Rattle.link_steps.specs.Split.{Link};
    ghost use Rattle.net_units.specs.declared.numbers.ActorNo.{ActorNo};

    ghost table: { TableId };

    ghost owners: { List ActorNo };

    ghost links: { List Link };
}

impl Home for Brand {
    ghost use Rattle.std.specs.Prelude.{[]};
    ghost use Rattle.link_ledger.specs.Owners.{no_table};

    ghost table = { no_table };

    ghost owners = { [] };

    ghost links = { [] };
}
