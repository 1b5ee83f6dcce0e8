// Why a report is sent to a port or held back from it, for C.
ghost use Rattle.std.specs.Prelude.{◌≡◌};
ghost use Rattle.gateway.specs.State.{lists, index_lists};
ghost use Rattle.gateway.specs.Asking.{answer_told, lent_why};
ghost use Rattle.c_face.specs.Flat.{told_reason};

use basics::Refusal;
use gateway::Head;
use gateway_rules::Reason;
use range::Block;

// The refusal or 0, the reason's number, and the line that it names.
#[repr(C)]
#[derive(Clone, Copy)]
pub struct FlatReason {
    pub refusal: u8,
    pub reason: u8,
    pub place: usize,
    pub node: u64,
    pub block: Block,
}

impl From<Result<Reason, Refusal>> for FlatReason {
    ghost from_gives = { λ r f. f ≡ told_reason (answer_told r) };

    fn from(answer: Result<Reason, Refusal>) -> FlatReason {
        let mut flat = FlatReason {
            refusal: 0,
            reason: 0,
            place: 0,
            node: 0,
            block: Block { start: 0, k: 0 },
        };
        match answer {
            Ok(reason) => {
                flat.reason = u8::from(reason);
                if let Reason::HeldBy(line) = reason {
                    flat.place = line.place;
                    flat.node = line.node;
                    flat.block = line.block;
                }
            }
            Err(refusal) => flat.refusal = u8::from(refusal),
        }
        flat
    }
}

#[unsafe(no_mangle)]
pub extern "C" fn hrislanoth_why(
    head: Head,
    nodes: &[u64],
    starts: &[u64],
    ports: &[u8],
    sizes: &[u8],
    order: &[u8],
    sets: &[u64],
    port: u8,
    asked: u8,
    bytes: &[u8],
) -> FlatReason
    ensures { result ≡ told_reason (lent_why head (lists nodes.now starts.now ports.now sizes.now) (index_lists order.now sets.now) port asked bytes.now) }
{
    FlatReason::from(gateway::why(
        head, nodes, starts, ports, sizes, order, sets, port, asked, bytes,
    ))
}
