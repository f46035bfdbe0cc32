// The bridge, by value.
ghost use Rattle.std.specs.Prelude.{◌≡◌, ◌+◌, ◌≤◌, length};
ghost use Rattle.bridge_rules.specs.Answers.{both, opened_of, stepped_of};
ghost use Rattle.bridge_rules.specs.Opening.{read, write, check, open_of};
ghost use Rattle.bridge_rules.specs.Turn.{turn_of};
ghost use Rattle.bridge_rules.specs.Incoming.{frame_of};
ghost use Rattle.bridge_rules.specs.Ending.{status_of, span_of, close_of, reset_of};

use bridge::Bridge;
use bridge_rules::{Changed, Opened, Stepped};
use wire::Span;
use wire::views::number_of;

#[unsafe(no_mangle)]
pub extern "C" fn hg_bridge_open_read(
    b: Bridge,
    first: &[u8],
    second: &[u8],
    device: u8,
    table: u8,
    offset: u16,
    count: usize,
) -> Opened
    ensures { result ≡ opened_of (open_of b (both first.now second.now) (read device table offset count)) }
{
    bridge::opening::open_read(b, first, second, device, table, offset, count).into()
}

#[unsafe(no_mangle)]
pub extern "C" fn hg_bridge_open_write(
    b: Bridge,
    first: &mut [u8],
    second: &[u8],
    device: u8,
    table: u8,
    offset: u16,
    bytes: &[u8],
) -> Opened
    ensures { (result ≡ opened_of (open_of b (both first.old second.now) (write device table offset bytes.now)))
        × (first.new
        ≡ (open_of b (both first.old second.now) (write device table offset bytes.now)).buffers.first) }
{
    bridge::opening::open_write(b, first, second, device, table, offset, bytes).into()
}

#[unsafe(no_mangle)]
pub extern "C" fn hg_bridge_open_check(
    b: Bridge,
    first: &[u8],
    second: &mut [u8],
    device: u8,
    table: u8,
    offset: u16,
    bytes: &[u8],
) -> Opened
    ensures { (result ≡ opened_of (open_of b (both first.now second.old) (check device table offset bytes.now)))
        × (second.new
        ≡ (open_of b (both first.now second.old) (check device table offset bytes.now)).buffers.second) }
{
    bridge::opening::open_check(b, first, second, device, table, offset, bytes).into()
}

#[unsafe(no_mangle)]
pub extern "C" fn hg_bridge_turn(b: Bridge, first: &[u8], second: &[u8]) -> Stepped
    ensures { result ≡ stepped_of (turn_of b (both first.now second.now)) }
{
    bridge::turning::turn(b, first, second).into()
}

#[unsafe(no_mangle)]
pub extern "C" fn hg_bridge_frame(
    b: Bridge,
    first: &mut [u8],
    second: &[u8],
    frame: bus::Frame,
) -> Stepped
    ensures { (result ≡ stepped_of (frame_of b (both first.old second.now) frame))
        × (first.new ≡ (frame_of b (both first.old second.now) frame).buffers.first) }
{
    bridge::incoming::frame(b, first, second, frame).into()
}

#[unsafe(no_mangle)]
pub extern "C" fn hg_bridge_status(b: Bridge, ticket: u32) -> u8
    ensures { result ≡ status_of b ticket }
{
    number_of(bridge::tickets::status(b, ticket))
}

#[unsafe(no_mangle)]
pub extern "C" fn hg_bridge_span(b: Bridge, first: &[u8], ticket: u32) -> Span
    ensures { (result ≡ span_of b (length first.now) ticket) × (result.start + result.len ≤ length first.now) }
{
    bridge::tickets::span(b, first, ticket).into()
}

#[unsafe(no_mangle)]
pub extern "C" fn hg_bridge_close(b: Bridge, ticket: u32) -> Changed
    ensures { result ≡ close_of b ticket }
{
    bridge::ending::close(b, ticket).into()
}

#[unsafe(no_mangle)]
pub extern "C" fn hg_bridge_reset(b: Bridge, own: u8) -> Changed
    ensures { result ≡ reset_of b own }
{
    bridge::ending::reset(b, own).into()
}
