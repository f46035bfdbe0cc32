// What the calls hand back as C sees it: the paper's number, and every other number 0 in a refusal. The zeros are written out, since they are
// what the paper says.
ghost use Rattle.std.specs.Prelude.{◌≡◌};
ghost use Rattle.std.proofs.Math.Option.{none};
ghost use Rattle.bridge_rules.specs.Answers.{yielded_of};
ghost use Rattle.bridge_rules.specs.Views.{as_opened, as_yielded, as_stepped, as_changed};

use crate::{After, Changed, Opened, Stepped, Yielded};
use bus_rules::Frame;
use wire::Refusal;
use wire::views::number_of;

impl From<After<u32>> for Opened {
    ghost from_gives = { λ r o. o ≡ as_opened r };

    fn from(r: After<u32>) -> Opened {
        Opened {
            bridge: r.bridge,
            ticket: r.answer.unwrap_or(0),
            number: number_of(r.answer),
        }
    }
}

// A number and no frame: all numbers of the frame are 0.
#[tactic(auto, unfolding(bus_rules::specs::Frames::no_frame))]
fn no_frame(number: u8) -> Yielded
    ensures { result ≡ yielded_of number none }
{
    Yielded {
        number,
        frames: 0,
        frame: Frame {
            id: 0,
            len: 0,
            bytes: [0; 8],
        },
    }
}

impl From<Result<Option<Frame>, Refusal>> for Yielded {
    ghost from_gives = { λ r y. y ≡ as_yielded r };

    fn from(r: Result<Option<Frame>, Refusal>) -> Yielded {
        match r {
            Ok(Some(frame)) => Yielded {
                number: 0,
                frames: 1,
                frame,
            },
            Ok(None) => no_frame(0),
            Err(e) => no_frame(e.number()),
        }
    }
}

impl From<After<Option<Frame>>> for Stepped {
    ghost from_gives = { λ r s. s ≡ as_stepped r };

    fn from(r: After<Option<Frame>>) -> Stepped {
        Stepped {
            bridge: r.bridge,
            answer: r.answer.into(),
        }
    }
}

impl From<After<()>> for Changed {
    ghost from_gives = { λ r c. c ≡ as_changed r };

    fn from(r: After<()>) -> Changed {
        Changed {
            bridge: r.bridge,
            number: number_of(r.answer),
        }
    }
}
