//! The pieces of a race, each of which a thread makes.
ghost use Rattle.std.specs.Prelude.{◌≡◌, ◌++◌, ◌∷◌, [], Ok, IfOk, map};
ghost use Rattle.link_steps.specs.Lists.{Each};
ghost use Rattle.race_run.specs.Callers.{IsNetworkOf};
ghost use Rattle.race_run.specs.declared.pieces.Piece.TheVariants.{Script, Rounds};
ghost use Rattle.race_run.specs.Pieces.{AreInOrder, IsMade, IsOfScript, MayBegin, Pairwise};

use crate::rounds::make_rounds;
use crate::scripts::make_script;
use call_script::Plan;
use link_ledger::{Home, Pass};
use link_steps::LinkStep;
use net_units::{Gate, OutOfMemory};
use shared_network::Network;
use std::alloc::Global;
use std::sync::Wait;
use std::thread;
use std::thread::Threads;
use tick_plane::Plane;

/// What one thread makes in a race, with the pass of its actor.
#[derive(Drop)]
pub(crate) enum Piece {
    /// A caller's script.
    Script(Pass),
    /// The plane's rounds beside the callers.
    Rounds(Plane, Pass),
}

/// A piece for each caller's pass, in their order, and then one for the plane with its pass.
pub(crate) fn pieces_of(
    alloc: Global,
    callers: Vec<Pass>,
    plane: Plane,
    last: Pass,
) -> Result<Vec<Piece>, OutOfMemory>
    ensures { IfOk result (λ pieces. pieces.items ≡ map (λ pass. Script pass) callers.items ++ Rounds plane last ∷ []) }
{
    let mut pieces = Vec::with_capacity(alloc, callers.len())?;
    for pass in callers {
        pieces.push(Piece::Script(pass))?;
    }
    pieces.push(Piece::Rounds(plane, last))?;
    Ok(pieces)
}

/// Makes a piece to its end. An `Err` comes only for want of memory. It may wait for each link.
pub(crate) fn make_piece<L: LinkStep + Send, H: Home, W: Wait, G: Gate>(
    rt: &W,
    alloc: Global,
    network: &Network<L, H>,
    plan: &Plan,
    gate: &G,
    piece: Piece,
) -> Result<Piece, OutOfMemory>
    requires network { IsNetworkOf plan.now H.links H.owners }
    requires begins { MayBegin H.table H.owners H.links plan.now piece }
    ensures { IsMade H.table H.owners H.links plan.now piece result }
{
    match piece {
        Piece::Script(pass) => {
            let mut pass = pass;
            let caller = usize::from(pass.actor().get());
            make_script(rt, alloc, network, plan, gate, caller, &mut pass)?;
            Ok(Piece::Script(pass))
        }
        Piece::Rounds(plane, pass) => {
            let (mut plane, mut pass) = (plane, pass);
            let rounds = plan.rounds();
            make_rounds(rt, network, plan, gate, &mut plane, rounds, &mut pass)?;
            Ok(Piece::Rounds(plane, pass))
        }
    }
}

/// Makes each piece, on a thread of its own where the machine can start one, and answers what they came to in their order. An
/// `Err` comes only for want of memory.
pub(crate) fn make_pieces<
    L: LinkStep + Send,
    H: Home + Send + Sync,
    R: Threads + Wait + Sync,
    G: Gate + Sync,
>(
    rt: &R,
    alloc: Global,
    network: &Network<L, H>,
    plan: &Plan,
    gate: &G,
    pieces: Vec<Piece>,
) -> Result<Vec<Result<Piece, OutOfMemory>>, OutOfMemory>
    requires network { IsNetworkOf plan.now H.links H.owners }
    requires begin { Each (MayBegin H.table H.owners H.links plan.now) pieces.items }
    ensures { IfOk result (λ made. Pairwise (IsMade H.table H.owners H.links plan.now) pieces.items made.items) }
{
    let made = thread::map_vec(
        rt,
        pieces,
        &move |piece: Piece| -> Result<Piece, OutOfMemory>
            requires { IsNetworkOf plan.now H.links H.owners × MayBegin H.table H.owners H.links plan.now piece }
            ensures { IsMade H.table H.owners H.links plan.entry.now piece result }
        { make_piece(rt, alloc, network, plan, gate, piece) },
    )?;
    Ok(made)
}

/// The callers' passes, and the plane with its pass, out of what their pieces came to, in the order of the pieces. An `Err`
/// comes where a piece has wanted memory, or for want of memory.
pub(crate) fn passes_of(
    alloc: Global,
    made: Vec<Result<Piece, OutOfMemory>>,
) -> Result<(Vec<Pass>, Plane, Pass), OutOfMemory>
    requires { AreInOrder made.items }
    ensures { IfOk result (λ r. made.items ≡ map (λ pass. Ok (Script pass)) r.0.items ++ Ok (Rounds r.1 r.2) ∷ []) }
{
    let mut made = made;
    let Some(ended) = made.pop() else {
        unreachable!()
    };
    let Piece::Rounds(plane, last) = ended? else {
        unreachable!()
    };
    Ok((callers_in(alloc, made)?, plane, last))
}

// The callers' passes out of what their pieces came to.
fn callers_in(
    alloc: Global,
    made: Vec<Result<Piece, OutOfMemory>>,
) -> Result<Vec<Pass>, OutOfMemory>
    requires { Each IsOfScript made.items }
    ensures { IfOk result (λ callers. made.items ≡ map (λ pass. Ok (Script pass)) callers.items) }
{
    let mut callers = Vec::with_capacity(alloc, made.len())?;
    for one in made {
        let Piece::Script(pass) = one? else {
            unreachable!()
        };
        callers.push(pass)?;
    }
    Ok(callers)
}
