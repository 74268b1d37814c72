//! What lines and the calls of layers are replied.
ghost use Rattle.std.specs.Prelude.{◌≡◌};
ghost use Rattle.map_model.specs.Cost.{Untold};
ghost use Rattle.map_model.specs.Refusal as refusals;
ghost use Rattle.map_model.specs.Reply as replies;
ghost use Rattle.map_shapes.specs.Shape.{model_shape};
ghost use Rattle.script_lang.specs.LineFault.{fault_of};
ghost use Rattle.map_layers.specs.Replies as layers;
ghost use Rattle.answer_text.specs.Reply.{refusal_of, reply_of, cost_of};
ghost use Rattle.map_session.specs.Replies.{update_cost};

use answer_text::{Refusal, Reply};
use map_layers::{AskFault, CreateFault, HasLayers, IndexFault, UpdateFault};
use map_shapes::{Recent, Shape, Spent, UpdateCost};
use script_lang::LineFault;

/// That a line has a fault.
pub fn faulty(fault: LineFault) -> Reply
    ensures reply { reply_of result ≡ replies.Refused (refusals.refusal_of_fault (fault_of fault)) }
    ensures cost { cost_of result ≡ Untold }
{
    refused(match fault {
        LineFault::Line => Refusal::Line,
        LineFault::Command => Refusal::Command,
        LineFault::Fields => Refusal::Fields,
        LineFault::Name => Refusal::Name,
        LineFault::Number => Refusal::Number,
        LineFault::Range => Refusal::Range,
        LineFault::Order => Refusal::Order,
        LineFault::Kind => Refusal::Kind,
        LineFault::Index => Refusal::Index,
    })
}

/// That a version was chosen, or why it wasn't.
pub fn chosen(outcome: Result<(), HasLayers>) -> Reply
    ensures reply { reply_of result ≡ layers.chosen outcome }
    ensures cost { cost_of result ≡ Untold }
{
    match outcome {
        Ok(()) => Reply::Made,
        Err(HasLayers) => refused(Refusal::Version),
    }
}

/// That a layer was made, or why it wasn't.
pub fn made(outcome: Result<(), CreateFault>) -> Reply
    ensures reply { reply_of result ≡ layers.created outcome }
    ensures cost { cost_of result ≡ Untold }
{
    match outcome {
        Ok(()) => Reply::Made,
        Err(CreateFault::Taken) => refused(Refusal::Taken),
        Err(CreateFault::NoRoom) => refused(Refusal::NoRoom),
    }
}

/// That an index was made, or why it wasn't.
pub fn indexed(outcome: Result<(), IndexFault>) -> Reply
    ensures reply { reply_of result ≡ layers.indexed outcome }
    ensures cost { cost_of result ≡ Untold }
{
    match outcome {
        Ok(()) => Reply::Made,
        Err(IndexFault::NoLayer) => refused(Refusal::NoLayer),
        Err(IndexFault::WrongKind) => refused(Refusal::Kind),
        Err(IndexFault::Standing) => refused(Refusal::Taken),
    }
}

/// That an item was added, moved or dropped, or why it wasn't.
pub fn updated(outcome: Result<Spent, UpdateFault>) -> Reply
    ensures reply { reply_of result ≡ layers.updated outcome }
    ensures cost { cost_of result ≡ update_cost outcome }
{
    match outcome {
        Ok(spent) => Reply::Updated {
            spent: UpdateCost::Spread(spent),
        },
        Err(fault) => refused(refusal_of_update(fault)),
    }
}

fn refusal_of_update(fault: UpdateFault) -> Refusal
    ensures { refusal_of result ≡ layers.refusal_of_update fault }
{
    match fault {
        UpdateFault::NoLayer => Refusal::NoLayer,
        UpdateFault::WrongKind => Refusal::Kind,
        UpdateFault::Duplicate(id) => Refusal::Duplicate { id },
        UpdateFault::Unknown(id) => Refusal::Unknown { id },
        UpdateFault::Full => Refusal::Full,
        UpdateFault::NoMemory => Refusal::NoMemory,
    }
}

/// The shape of an item, or why it isn't told.
pub fn got(outcome: Result<Shape, AskFault>) -> Reply
    ensures reply { reply_of result ≡ layers.questioned (λ shape. replies.Got (model_shape shape)) outcome }
    ensures cost { cost_of result ≡ Untold }
{
    match outcome {
        Ok(shape) => Reply::Got { shape },
        Err(fault) => refused(refusal_of_question(fault)),
    }
}

/// How many items there are, or why that isn't told.
pub fn sized(outcome: Result<u64, AskFault>) -> Reply
    ensures reply { reply_of result ≡ layers.questioned replies.Sized outcome }
    ensures cost { cost_of result ≡ Untold }
{
    match outcome {
        Ok(n) => Reply::Size { n },
        Err(fault) => refused(refusal_of_question(fault)),
    }
}

/// The last identifiers, or why they aren't told.
pub fn recent(outcome: Result<Recent, AskFault>) -> Reply
    ensures reply { reply_of result ≡ layers.questioned replies.Latest outcome }
    ensures cost { cost_of result ≡ Untold }
{
    match outcome {
        Ok(ids) => Reply::Recent { ids },
        Err(fault) => refused(refusal_of_question(fault)),
    }
}

/// Why a question isn't answered.
pub fn refusal_of_question(fault: AskFault) -> Refusal
    ensures { refusal_of result ≡ layers.refusal_of_ask fault }
{
    match fault {
        AskFault::NoLayer => Refusal::NoLayer,
        AskFault::WrongKind => Refusal::Kind,
        AskFault::NoIndex => Refusal::Index,
        AskFault::Building(items) => Refusal::Building { items },
        AskFault::Unknown(id) => Refusal::Unknown { id },
        AskFault::NoMemory => Refusal::NoMemory,
    }
}

/// A refusal.
fn refused(cause: Refusal) -> Reply
    ensures { result ≡ Reply.Refused cause }
{
    Reply::Refused { cause }
}
