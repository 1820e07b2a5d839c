//! What a run shows, and the status with which it ends.
ghost use Rattle.std.specs.Prelude.{◌≡◌};
ghost use Rattle.fp_app.specs.Texts.{kind_word};
ghost use Rattle.fp_app.specs.Shown.{both_status, search_status, status_of, status_code};

use crate::{CheckOutcome, Kept, Solved};
use fp_certificate::Answer;
use fp_fleet::{Fleet, TruckDays};
use fp_model::{Instance, Plan};
use fp_prices::{LeafPrice, Table};
use fp_prices_spans::Span;
use fp_replan_present::{Present, Rest};
use fp_yard::Event;

/// How a run ended.
#[derive(Clone, Copy, Debug, PartialEq, Eq)]
pub enum Status {
    /// The command has its answer.
    Done,
    /// The search ended before its answer was proved the cheapest.
    Unfinished,
    /// No plan exists.
    Infeasible,
    /// The certificate isn't accepted.
    Rejected,
    /// The words are none of the forms; the source wasn't read.
    BadWords,
    /// The records have a fault.
    BadInput,
    /// More bytes than the command's limit came.
    TooLong,
    /// A read failed; nothing was written.
    ReadFault,
    /// A write failed; a front of the text was written.
    WriteFault,
    /// No memory was found; nothing was written.
    NoMemory,
}

impl Status {
    /// The number with which the program ends.
    pub fn code(&self) -> u8
        ensures { result ≡ status_code self.now }
    {
        match self {
            Status::Done => 0,
            Status::Unfinished => 10,
            Status::Infeasible => 11,
            Status::Rejected => 12,
            Status::BadWords => 20,
            Status::BadInput => 21,
            Status::TooLong => 22,
            Status::ReadFault => 30,
            Status::WriteFault => 31,
            Status::NoMemory => 40,
        }
    }
}

/// What an accepted certificate claims.
#[derive(Clone, Copy, Debug, PartialEq, Eq)]
pub enum AnswerKind {
    /// Its legs are a plan of its cost.
    Direct,
    /// Moreover no plan is cheaper.
    Optimal,
    /// Moreover no plan costs less than its bound.
    Unfinished,
    /// No plan exists.
    Infeasible,
    /// No plan keeps the legs or goes on with the day that are told, and the shipment is the first that is
    /// stuck.
    Stuck,
}

impl AnswerKind {
    /// The word of the kind in a text.
    pub fn word(&self) -> &'static [u8]
        ensures { result.now ≡ kind_word self.now }
    {
        match self {
            AnswerKind::Direct => b"direct",
            AnswerKind::Optimal => b"optimal",
            AnswerKind::Unfinished => b"unfinished",
            AnswerKind::Infeasible => b"infeasible",
            AnswerKind::Stuck => b"stuck",
        }
    }
}

impl From<Answer> for AnswerKind {
    ghost use Rattle.std.specs.Prelude.{◌≡◌};
    ghost use Rattle.fp_app.specs.Checks.{answer_kind};

    ghost from_gives = { λ answer kind. kind ≡ answer_kind answer };

    fn from(answer: Answer) -> AnswerKind {
        match answer {
            Answer::Direct { .. } => AnswerKind::Direct,
            Answer::Optimal { .. } => AnswerKind::Optimal,
            Answer::Unfinished { .. } => AnswerKind::Unfinished,
            Answer::Infeasible { .. } => AnswerKind::Infeasible,
        }
    }
}

/// What a run shows: the answer whose text it writes.
#[derive(Drop)]
pub enum Shown {
    /// The direct plan of an instance.
    Direct {
        instance: Instance,
        plan: Plan,
    },
    /// What a plan of an instance costs at least: the value of the leaf without sides at round 0
    /// under the price, the tables and the spans, in parts of a unit of money, of which the
    /// instance's scale makes one. It's printed in whole units, rounded up.
    Bound {
        instance: Instance,
        price: LeafPrice,
        tables: Vec<Table>,
        spans: Vec<Span>,
        value: u128,
    },
    /// What a search shows of an instance, at the scale of the words, which began with the direct plan or
    /// with that of a certificate: its certificate, which is optimal or unfinished, the notes on its rounds
    /// and splits, and what it left.
    Planned {
        instance: Instance,
        solved: Solved,
    },
    /// What a search shows of an instance that was drawn from a seed, and what the checker says of its
    /// certificate.
    Trial {
        seed: u32,
        outcome: CheckOutcome,
        instance: Instance,
        solved: Solved,
    },
    /// What a search shows among the plans of an instance that keep legs: its certificate, which is
    /// optimal or unfinished, the notes on its rounds and splits, and what it left.
    Replanned {
        instance: Instance,
        kept: Vec<Kept>,
        solved: Solved,
    },
    /// What a search shows of what is left of a day that is under way: its certificate, which is optimal or
    /// unfinished and of what is left alone, the notes on its rounds and splits, and what it left.
    Underway {
        instance: Instance,
        present: Present,
        rest: Rest,
        solved: Solved,
    },
    /// The first shipment that no legs carry that begin with its kept legs, or of a day that is under way,
    /// that no legs under way carry, by its number.
    Stuck {
        instance: Instance,
        shipment: u32,
    },
    /// What searches show of an instance without its last shipment and with it.
    Quoted {
        instance: Instance,
        before: Solved,
        after: Solved,
    },
    /// What searches show of an instance without its last shipment, which is the named one, and with it,
    /// and what that one adds between the two plans in hand.
    NamedQuote {
        instance: Instance,
        before: Solved,
        after: Solved,
        added: u128,
    },
    /// The first shipment that can't be carried in time, by its number, and its fastest time in
    /// the input's unit, `None` where it has no route.
    Infeasible {
        instance: Instance,
        shipment: u32,
        time: Option<u32>,
    },
    /// The certificate of the input is accepted, and its answer is of this kind.
    Accepted {
        kind: AnswerKind,
    },
    /// The certificate of the input isn't accepted, and this is the first part that fails: 1 the
    /// plan, 2 its cost, 3 the trucks, 4 the points, 5 the prices, 6 the tree, 7 a leaf below the
    /// claim, 8 an answer `infeasible` that isn't so.
    RejectedPart {
        number: u32,
    },
    /// The plan that a certificate tells, with what happens as draws choose when its terminals run
    /// it.
    Yard {
        instance: Instance,
        plan: Plan,
        log: Vec<Event>,
    },
    /// The plan that a certificate tells, with the fewest trucks that run it.
    Fleet {
        instance: Instance,
        plan: Plan,
        fleet: Fleet,
    },
    /// The same, with what each truck runs; `None` where that is too much to tell.
    Trucks {
        instance: Instance,
        plan: Plan,
        fleet: Fleet,
        told: Option<TruckDays>,
    },
    /// The words are none of the forms.
    BadWords,
    /// The record with this ordinal, from 1, is the first with a fault, and this is the fault's
    /// code; the ordinal is 0 where the input as a whole has it.
    BadInput {
        ordinal: u32,
        code: u32,
    },
    /// More bytes than the command's limit came.
    TooLong,
    /// There is no answer.
    Nothing,
}

// The status of a search that ended with this answer.
fn search_status(answer: &Answer) -> Status
    ensures { result ≡ search_status answer.now }
{
    match answer {
        Answer::Unfinished { .. } => Status::Unfinished,
        _ => Status::Done,
    }
}

// The status of two searches that ended with these answers: done where both are.
fn both_status(before: &Answer, after: &Answer) -> Status
    ensures { result ≡ both_status before.now after.now }
{
    match search_status(before) {
        Status::Done => search_status(after),
        unfinished => unfinished,
    }
}

impl Shown {
    /// The status of a run that showed this to its end.
    pub fn status(&self) -> Status
        ensures { result ≡ status_of self.now }
    {
        match self {
            Shown::Direct { .. } => Status::Done,
            Shown::Bound { .. } => Status::Done,
            Shown::Planned { solved, .. } | Shown::Trial { solved, .. } => search_status(
                &solved.certificate.answer,
            ),
            Shown::Replanned { solved, .. } | Shown::Underway { solved, .. } => search_status(
                &solved.certificate.answer,
            ),
            Shown::Stuck { .. } => Status::Infeasible,
            Shown::Quoted { before, after, .. } | Shown::NamedQuote { before, after, .. } =>
                both_status(&before.certificate.answer, &after.certificate.answer),
            Shown::Infeasible { .. } => Status::Infeasible,
            Shown::Accepted { .. } => Status::Done,
            Shown::RejectedPart { .. } => Status::Rejected,
            Shown::Yard { .. } => Status::Done,
            Shown::Fleet { .. } => Status::Done,
            Shown::Trucks { .. } => Status::Done,
            Shown::BadWords => Status::BadWords,
            Shown::BadInput { .. } => Status::BadInput,
            Shown::TooLong => Status::TooLong,
            Shown::Nothing => Status::NoMemory,
        }
    }
}

/// How a run ended, and what it showed: at `WriteFault` what was being written, at `ReadFault` and
/// `NoMemory` nothing.
#[derive(Drop)]
pub struct Ran {
    pub status: Status,
    pub shown: Shown,
}
