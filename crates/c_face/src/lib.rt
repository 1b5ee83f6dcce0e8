// The proved functions for C and for what links with C; include/hrislanoth.h is the header.
#![tactic(auto)]

mod flat;
mod frames;
mod lists;
mod reasons;
mod records;

ghost use Rattle.std.specs.Prelude.{◌≡◌, [], drop};
ghost use Rattle.range.specs.Range.{block_of};
ghost use Rattle.range.specs.Answer.{number_told};
ghost use Rattle.range.specs.Comparing.{comparison, comparison_told};
ghost use Rattle.text.specs.Text.{filled_at, end_at};
ghost use Rattle.message.specs.Reading.{read_told};
ghost use Rattle.message.specs.Writing.{write_told, out_after};
ghost use Rattle.gateway_rules.specs.Step.{start as started_by};
ghost use Rattle.index_rules.specs.Index.{index_of};
ghost use Rattle.index_rules.specs.Boxes.{box_step};
ghost use Rattle.gateway.specs.State.{box_of, index_in, lists, index_lists};
ghost use Rattle.gateway.specs.Answers.{seen_in, seen_of, RefusalKeeps, seen_lent, lent_step, LentRefusalKeeps};
ghost use Rattle.replay.specs.Lines.{text_of as trial_text};
ghost use Rattle.rehearsal.specs.Lines.{text_of as board_text};
ghost use Rattle.c_face.specs.Flat.{told_number, message_from, told_reading, told_writing};

pub use flat::{FlatMessage, FlatNumber, FlatReading, FlatWriting};
use gateway::{Answer, Gateway, Head, LentAnswer};
use message::Message;
use range::Block;

#[unsafe(no_mangle)]
pub extern "C" fn hrislanoth_block_of(number: u64) -> Block
    ensures { result ≡ block_of number }
{
    range::block_of(number)
}

#[unsafe(no_mangle)]
pub extern "C" fn hrislanoth_number_of(block: Block) -> FlatNumber
    ensures { result ≡ told_number (number_told block) }
{
    FlatNumber::from(range::number_of(block))
}

#[unsafe(no_mangle)]
pub extern "C" fn hrislanoth_compare(first: Block, second: Block) -> FlatNumber
    ensures { result ≡ told_number (comparison_told (comparison first second)) }
{
    FlatNumber::from(range::compare(first, second))
}

#[unsafe(no_mangle)]
pub extern "C" fn hrislanoth_read(bytes: &[u8]) -> FlatReading
    ensures { result ≡ told_reading (read_told bytes.now) }
{
    FlatReading::from(message::read(bytes))
}

#[unsafe(no_mangle)]
pub extern "C" fn hrislanoth_write(
    message: FlatMessage,
    content: &[u8],
    out: &mut [u8],
) -> FlatWriting
    ensures value { result ≡ told_writing (write_told (message_from message) content.now out.old) }
    ensures out_after { out.new ≡ out_after (message_from message) content.now out.old }
{
    FlatWriting::from(message::write(Message::from(message), content, out))
}

#[unsafe(no_mangle)]
pub extern "C" fn hrislanoth_start(ports: u8, automatic: u64) -> Answer
    ensures { seen_in result ≡ seen_of (index_of []) (started_by ports automatic) }
{
    gateway::start(ports, automatic)
}

#[unsafe(no_mangle)]
pub extern "C" fn hrislanoth_receive(gateway: Gateway, port: u8, bytes: &[u8]) -> Answer
    ensures result_value { seen_in result ≡ seen_of (box_of gateway).index (box_step (box_of gateway) port bytes.now) }
    ensures refusal_keeps { RefusalKeeps gateway result }
{
    gateway::receive(gateway, port, bytes)
}

#[unsafe(no_mangle)]
pub extern "C" fn hrislanoth_receive_lent(
    head: Head,
    nodes: &mut [u64],
    starts: &mut [u64],
    ports: &mut [u8],
    sizes: &mut [u8],
    order: &mut [u8],
    sets: &mut [u64],
    port: u8,
    bytes: &[u8],
) -> LentAnswer
    ensures sets_value { seen_lent head result (lists nodes.new starts.new ports.new sizes.new) (index_lists order.new sets.new) ≡ seen_of (index_in head.count (index_lists order.old sets.old)) (lent_step head (lists nodes.old starts.old ports.old sizes.old) (index_lists order.old sets.old) port bytes.now) }
    ensures lent_refusal_keeps { LentRefusalKeeps head (lists nodes.old starts.old ports.old sizes.old) (index_lists order.old sets.old) result (lists nodes.new starts.new ports.new sizes.new) (index_lists order.new sets.new) }
{
    gateway::receive_lent(head, nodes, starts, ports, sizes, order, sets, port, bytes)
}

#[unsafe(no_mangle)]
pub extern "C" fn hrislanoth_trial_text(file: &[u8], text: &mut [u8]) -> usize
    ensures value { result ≡ end_at 0 (trial_text file.now) text.old }
    ensures text_after { text.new ≡ filled_at 0 (trial_text file.now) text.old }
{
    replay::replay(file, text)
}

#[unsafe(no_mangle)]
pub extern "C" fn hrislanoth_board_text(file: &[u8], skip: usize, text: &mut [u8]) -> usize
    ensures value { result ≡ end_at 0 (drop skip (board_text file.now)) text.old }
    ensures text_after { text.new ≡ filled_at 0 (drop skip (board_text file.now)) text.old }
{
    rehearsal::rehearse(file, skip, text)
}
