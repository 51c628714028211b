// The lines of a bill, put into a buffer that holds every bill.
#![tactic(auto)]

ghost use Rattle.std.specs.Prelude.{◌≡◌, ◌≤◌, length};
ghost use Rattle.text.specs.Put.{Room, Put};
ghost use Rattle.sheet.specs.Sheet.{view_line, panel_line, panel_list, nothing_line, sheet, refusal};

use arrayvec::ArrayVec;
use text::{put_last, put_line, put_number, put_spaced, put_text};

// Room for every bill: 1,024 panels' lines of at most 22 bytes each, and three lines more.
pub const ROOM: usize = 32768;

// the first line: the window's three numbers
#[tactic(auto, unfolding(text::specs::Text::numbers, text::specs::Text::line))]
fn put_view<const N: usize>(out: &mut ArrayVec<u8, N>, width: u32, height: u32, lens: u32)
    requires { Room (view_line width height lens) N out.old }
    ensures { Put (view_line width height lens) out.old out.new }
{
    put_text(out, b"view");
    put_spaced(out, width);
    put_spaced(out, height);
    put_last(out, lens);
}

// a panel that has cells, and their number
fn put_panel<const N: usize>(out: &mut ArrayVec<u8, N>, panel: u32, cells: u32)
    requires { Room (panel_line panel cells) N out.old }
    ensures { Put (panel_line panel cells) out.old out.new }
{
    if cells != 0 {
        put_number(out, panel);
        put_last(out, cells);
    }
}

// the panels, rising
fn put_panels<const N: usize>(out: &mut ArrayVec<u8, N>, counts: &[u32])
    requires counts_len_bound { length counts.now ≤ 1025 }
    requires room { Room (panel_list counts.now) N out.old }
    ensures { Put (panel_list counts.now) out.old out.new }
{
    for panel in 1..counts.len() {
        put_panel(out, panel as u32, counts[panel]);
    }
}

// the cells that show no panel: their line stands in every bill
fn put_nothing<const N: usize>(out: &mut ArrayVec<u8, N>, cells: u32)
    requires { Room (nothing_line cells) N out.old }
    ensures { Put (nothing_line cells) out.old out.new }
{
    put_line(out, b"nothing", cells);
}

// the bill of an accepted call
#[tactic(auto, using(crate::proofs::Rooms::product_fits), unfolding(crate::specs::Sheet::sheet))]
pub fn put_sheet(width: u16, height: u16, lens: u16, counts: &[u32]) -> ArrayVec<u8, ROOM>
    requires { length counts.now ≡ 1025 }
    ensures { result.items ≡ sheet width height lens counts.now }
{
    let mut out = ArrayVec::new();
    put_view(
        &mut out,
        u32::from(width),
        u32::from(height),
        u32::from(lens),
    );
    put_panels(&mut out, counts);
    put_nothing(&mut out, counts[0]);
    put_line(&mut out, b"total", u32::from(width) * u32::from(height));
    out
}

// the one line of a refusal
#[tactic(auto, using(crate::proofs::Rooms::refusal_length), unfolding(crate::specs::Sheet::refusal))]
pub fn put_refusal(number: u32) -> ArrayVec<u8, ROOM>
    ensures { result.items ≡ refusal number }
{
    let mut out = ArrayVec::new();
    put_line(&mut out, b"refused", number);
    out
}
