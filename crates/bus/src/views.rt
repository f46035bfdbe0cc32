// What the bus hands back, and what C sees of it: the zeros of what there is none of are written out, since they are what the paper says.
ghost use Rattle.std.specs.Prelude.{◌≡◌};
ghost use Rattle.bus_rules.specs.Holder.{no_answer};
ghost use Rattle.bus.specs.Views.{as_request_read, as_served, as_answer};

use crate::{Frame, HolderAnswer, HolderState, Refusal, Request, RequestRead, Served};

// What request bytes ask for, and whether their reserved bits are clear.
#[derive(Clone, Copy)]
pub struct Asked {
    pub request: Request,
    pub clear: bool,
}

// A holder's answer frame, and whether it answers a REQ or a protocol query whose reserved bits are clear.
#[derive(Clone, Copy)]
pub struct Reply {
    pub frame: Frame,
    pub clear: bool,
}

// What a holder does with a frame: it refuses it, or serves it with an answer frame or none; and its state after it.
#[derive(Clone, Copy)]
pub struct Answered {
    pub served: Result<Option<Reply>, Refusal>,
    pub state: HolderState,
}

impl From<Asked> for RequestRead {
    ghost from_gives = { λ q r. r ≡ as_request_read q };

    fn from(q: Asked) -> RequestRead {
        RequestRead {
            request: q.request,
            clear: u8::from(q.clear),
        }
    }
}

// A number and no frame.
#[tactic(auto, unfolding(bus_rules::specs::Holder::no_answer, bus_rules::specs::Frames::no_frame))]
fn no_answer(number: u8) -> Served
    ensures { result ≡ no_answer number }
{
    Served {
        number,
        frames: 0,
        clear: 0,
        frame: Frame {
            id: 0,
            len: 0,
            bytes: [0; 8],
        },
    }
}

#[tactic(auto, unfolding(bus_rules::specs::Holder::answer_with))]
fn served(r: Result<Option<Reply>, Refusal>) -> Served
    ensures { result ≡ as_served r }
{
    match r {
        Ok(Some(reply)) => Served {
            number: 0,
            frames: 1,
            clear: u8::from(reply.clear),
            frame: reply.frame,
        },
        Ok(None) => no_answer(0),
        Err(e) => no_answer(e.number()),
    }
}

impl From<Answered> for HolderAnswer {
    ghost from_gives = { λ a h. h ≡ as_answer a };

    fn from(a: Answered) -> HolderAnswer {
        HolderAnswer {
            served: served(a.served),
            state: a.state,
        }
    }
}
