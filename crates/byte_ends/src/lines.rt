//! The lines of a source, read in blocks.
ghost use Rattle.std.specs.Prelude.{◌≡◌, ◌+◌, ◌-◌, ◌^◌, ◌<◌, ◌≤◌, ◌⊎◌, [], ◌++◌, false, length, take, drop, Ok, Err, IfOk, IfNone, IfSome, vec_len, vec_capacity};
ghost use Rattle.byte_ends.specs.Answers.{Answers, Foretells};
ghost use Rattle.byte_ends.specs.Steps.{Fetches, Settles};
ghost use Rattle.byte_ends.specs.Cutting.{HasLine, HasNoFeed, IsCut, IsCutting, IsDone, IsFinal, IsOf, WantsMore, IsOver, IsDecided, ahead, let_go};
ghost use Rattle.byte_ends.specs.Held.{IsFirstFeed, IsRestOfBlock, front_of};

use crate::block::{BLOCK, Block};
use crate::reserved::add_reserved;
use crate::source::{Source, Took};
use net_units::OutOfMemory;
use std::alloc::Global;
use std::marker::Model;

// The byte that ends a line.
const FEED: u8 = b'\n';

/// What a call came to.
#[derive(Clone, Copy, Debug, PartialEq, Eq)]
pub enum Cut {
    /// The next line is in hand.
    Line,
    /// The source ended, and all of its bytes were given.
    End,
}

/// Why a call gave no line.
#[derive(Clone, Copy, Debug, PartialEq, Eq)]
pub enum LineRefusal {
    /// The source failed, as its count of faults shows. The call may be made again.
    ReadFault,
    /// One byte more than lines may have was taken, `taken` in all, and no whole line is left among the others.
    TooLong {
        /// How many bytes were taken.
        taken: u64,
    },
    /// The source ended inside the line with this number, from 1.
    NoLineEnd {
        /// The number of that line.
        line: u64,
    },
    /// Out of memory. The call may be made again.
    Memory,
}

/// Cuts the bytes of one source into lines.
///
/// It takes bytes block by block, gives all lines that it has taken before it reads again, and never takes more than
/// one byte more than all lines together may have.
#[derive(Debug, Drop)]
pub struct Lines {
    most: u64,
    taken: u64,
    number: u64,
    ended: bool,
    // The line is whole and was given, so it isn't pending.
    whole: bool,
    // The line in hand, or the beginning of the line that is pending.
    line: Vec<u8>,
    block: Block,
}

impl Model for Lines {
    ghost use Rattle.std.specs.Prelude.{vec_capacity};
    ghost use Rattle.byte_ends.specs.Cutting.{Cutting};
    ghost use Rattle.byte_ends.specs.Held.{HoldsParts, cutting_of, front_of};

    ghost Value = { Cutting };

    ghost view = { λ a. cutting_of a.most a.taken a.number a.ended a.whole a.line.items a.block };

    ghost invariant = { λ a. HoldsParts
        (cutting_of a.most a.taken a.number a.ended a.whole a.line.items a.block)
        (front_of a.whole a.line.items) a.block (vec_capacity a.line) };
}

impl Lines {
    /// The lines of a source of which nothing was read yet. They may have `most` bytes together, line feeds included.
    /// `most` is below 2^63. An `Err` comes only for want of memory.
    pub fn new(alloc: Global, most: u64) -> Result<Lines, OutOfMemory>
        requires { most < 2 ^ 63 }
        ensures made { IfOk result (λ t. t
            ≡ record { most = most; taken = 0; pending = []; ended = false; number = 0; line = [] }) }
        ensures stands { IfOk result IsCutting }
    {
        let block = Block::new(alloc)?;
        Ok(Lines {
            most,
            taken: 0,
            number: 0,
            ended: false,
            whole: false,
            line: Vec::new(alloc),
            block,
        })
    }

    /// The line in hand, without its line feed. It is empty where the last call gave none.
    pub fn line(&self) -> &[u8]
        ensures { result.now ≡ self.now.line }
    {
        if self.whole {
            self.line.as_slice()
        } else {
            &[]
        }
    }

    /// How many lines were given, which is the number of the last one, from 1.
    pub fn number(&self) -> u64
        ensures { result ≡ self.now.number }
    {
        self.number
    }

    /// The bytes that are pending, as far as they stand in the block that was read last. Before them stands at most the
    /// beginning of a line.
    pub fn rest_of_block(&self) -> &[u8]
        ensures { IsRestOfBlock self.now.pending result.now }
    {
        self.block.rest()
    }

    /// Cuts off the next line. It reads only where the bytes that it has taken decide nothing.
    ///
    /// `Line` has put the next line in hand; `End` says that the source ended and all of its bytes were given. After
    /// `ReadFault` and `Memory`, which lose nothing, the call may be made again; after `End` and after every other
    /// refusal each later call answers the same.
    pub fn read_line<S: Source>(&mut self, source: &mut S) -> Result<Cut, LineRefusal>
        ensures answers { Answers result self.old self.new (S.left source.old) (S.left source.new)
            (S.faults source.old) (S.faults source.new) }
        ensures counts { S.faults source.old ≤ S.faults source.new }
        ensures stands { IsCutting self.new }

        // Where the source tells its bytes, they determine the answer.
        ensures told { IsOf self.old (S.left source.old)
            → Foretells result self.old self.new (ahead self.old (S.left source.old))
            (ahead self.new (S.left source.new)) }

        // What was taken is given, or refused, before the source is read again.
        ensures line_first { HasLine self.old → result ≡ Ok Cut.Line }
        ensures over_again { IsOver self.old → result ≡ Err (LineRefusal.TooLong self.old.taken) }
        ensures cut_again { IsCut self.old
            → result ≡ Err (LineRefusal.NoLineEnd (self.old.number + 1)) }
        ensures done_again { IsDone self.old → result ≡ Ok Cut.End }
        ensures unread { IsDecided self.old → source.new ≡ source.old }
        ensures untaken { IsDecided self.old → self.new.taken ≡ self.old.taken }
        ensures near { result ≡ Ok Cut.Line
            → HasLine self.old ⊎ (length self.new.pending < BLOCK) }
        ensures same_again { IsFinal self.old → self.new ≡ let_go self.old }
    {
        match self.settle() {
            Some(answer) => answer,
            None => self.read_on(source),
        }
    }

    // Reads until the bytes taken decide something.
    fn read_on<S: Source>(&mut self, source: &mut S) -> Result<Cut, LineRefusal>
        requires { WantsMore self.old }
        ensures answers { Answers result self.old self.new (S.left source.old) (S.left source.new)
            (S.faults source.old) (S.faults source.new) }
        ensures counts { S.faults source.old ≤ S.faults source.new }
        ensures stands { IsCutting self.new }
        ensures near { result ≡ Ok Cut.Line → length self.new.pending < BLOCK }
    {
        loop {
            self.fetch(source)?;
            if let Some(answer) = self.settle() {
                return answer;
            }
        }
    }

    // Reads one block more, after the bytes that are pending.
    fn fetch<S: Source>(&mut self, source: &mut S) -> Result<(), LineRefusal>
        requires { WantsMore self.old }
        ensures fetches { Fetches result self.old self.new (S.left source.old) (S.left source.new)
            (S.faults source.old) (S.faults source.new) }
        ensures counts { S.faults source.old ≤ S.faults source.new }
        ensures stands { IsCutting self.new }
    {
        begin_line(&mut self.line, &mut self.whole);
        let count = self.block.rest().len();
        move_front(&mut self.block, &mut self.line, count);
        let Ok(()) = self.line.reserve(BLOCK) else {
            return Err(LineRefusal::Memory);
        };
        let want = (self.most + 1 - self.taken).min(BLOCK as u64) as usize;
        match self.block.refill(source, want) {
            Took::Taken(count) => {
                self.taken += count as u64;
                Ok(())
            }
            Took::End => {
                self.ended = true;
                Ok(())
            }
            Took::Failed => Err(LineRefusal::ReadFault),
        }
    }

    // What the bytes taken so far decide. Where they decide nothing, more has to be read.
    fn settle(&mut self) -> Option<Result<Cut, LineRefusal>>
        ensures settles { Settles result self.old self.new }
        ensures stands { IsCutting self.new }
    {
        begin_line(&mut self.line, &mut self.whole);
        let surplus = self.taken.saturating_sub(self.most) as usize;
        if let Some(at) = first_feed(self.block.rest(), surplus) {
            move_front(&mut self.block, &mut self.line, at);
            self.block.skip(1);
            self.whole = true;
            self.number += 1;
            return Some(Ok(Cut::Line));
        }
        if surplus > 0 {
            Some(Err(LineRefusal::TooLong { taken: self.taken }))
        } else if !self.ended {
            None
        } else if self.line.is_empty() && self.block.is_empty() {
            Some(Ok(Cut::End))
        } else {
            Some(Err(LineRefusal::NoLineEnd {
                line: self.number + 1,
            }))
        }
    }
}

// Lets a line go that was given, so that the next one begins.
fn begin_line(line: &mut Vec<u8>, whole: &mut bool)
    ensures front { line.new.items ≡ front_of whole.old line.old.items }
    ensures begun { whole.new ≡ false }
    ensures capacity { vec_capacity line.new ≡ vec_capacity line.old }
{
    if *whole {
        line.clear();
        *whole = false;
    }
}

// Where the first line feed stands, the last `surplus` bytes left aside.
fn first_feed(bytes: &[u8], surplus: usize) -> Option<usize>
    ensures none { IfNone result (HasNoFeed (take (length bytes.now - surplus) bytes.now)) }
    ensures found { IfSome result (IsFirstFeed (take (length bytes.now - surplus) bytes.now)) }
{
    let count = bytes.len().saturating_sub(surplus);
    bytes[..count].iter().position(|byte| *byte == FEED)
}

// Moves the first `count` bytes of the block to the end of the line, where room for them is reserved.
fn move_front(block: &mut Block, line: &mut Vec<u8>, count: usize)
    requires within { count ≤ length block.old }
    requires reserved { vec_len line.old + length block.old ≤ vec_capacity line.old }
    ensures line { line.new.items ≡ line.old.items ++ take count block.old }
    ensures block { block.new ≡ drop count block.old }
    ensures capacity { vec_capacity line.old ≤ vec_capacity line.new }
{
    add_reserved(line, &block.rest()[..count]);
    block.skip(count);
}
