// Request bytes and first states as C sees them: the paper's number, and every other number 0 in a refusal. The zeros are written out, since
// they are what the paper says.
ghost use Rattle.std.specs.Prelude.{◌≡◌};
ghost use Rattle.bus_rules.specs.Request.{as_request_bytes};
ghost use Rattle.bus_rules.specs.Device.{as_first_state};

use crate::{FirstState, HolderState, RequestBytes};
use wire::Refusal;

type Bytes = Result<[u8; 3], Refusal>;

type First = Result<HolderState, Refusal>;

impl From<Bytes> for RequestBytes {
    ghost from_gives = { λ r b. b ≡ as_request_bytes r };

    fn from(r: Bytes) -> RequestBytes {
        match r {
            Ok(bytes) => RequestBytes { number: 0, bytes },
            Err(e) => RequestBytes {
                number: e.number(),
                bytes: [0; 3],
            },
        }
    }
}

impl From<First> for FirstState {
    ghost from_gives = { λ r s. s ≡ as_first_state r };

    #[tactic(auto, unfolding(crate::specs::Device::none_current))]
    fn from(r: First) -> FirstState {
        match r {
            Ok(state) => FirstState { number: 0, state },
            Err(e) => FirstState {
                number: e.number(),
                state: HolderState {
                    family: 0,
                    has_current: 0,
                    current: 0,
                },
            },
        }
    }
}
