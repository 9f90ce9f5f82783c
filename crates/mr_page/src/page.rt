//! A page, part by part.
ghost use Rattle.std.specs.Prelude.{◌≡◌, ◌++◌, OnOk};
ghost use Rattle.mr_page.specs.Page.{end, escaped, escaped_byte, head, lanes_script, middle, page_of, page_script, run_script, script, state_script, tail};

use crate::end_part::END;
use crate::head_part::HEAD;
use crate::lanes_part::LANES;
use crate::middle_part::MIDDLE;
use crate::page_part::PAGE;
use crate::run_part::RUN;
use crate::state_part::STATE;
use std::alloc::AllocError;

/// The page of a run, whose lines of JSON these are. It fails by nothing but an allocation failure.
pub fn put_page(out: &mut Vec<u8>, lines: &[u8]) -> Result<(), AllocError>
    ensures { OnOk result (out.new.items ≡ out.old.items ++ page_of lines.now) }
{
    put_head(out)?;
    put_lines(out, lines)?;
    put_tail(out)
}

// Lines of JSON, with each `<` as an escape.
fn put_lines(out: &mut Vec<u8>, lines: &[u8]) -> Result<(), AllocError>
    ensures { OnOk result (out.new.items ≡ out.old.items ++ escaped lines.now) }
{
    for byte in lines {
        put_byte(out, *byte)?;
    }
    Ok(())
}

fn put_byte(out: &mut Vec<u8>, byte: u8) -> Result<(), AllocError>
    ensures { OnOk result (out.new.items ≡ out.old.items ++ escaped_byte byte) }
{
    if byte == b'<' {
        out.extend_from_slice(b"\\u003c")
    } else {
        out.extend_from_slice(&[byte])
    }
}

fn put_tail(out: &mut Vec<u8>) -> Result<(), AllocError>
    ensures { OnOk result (out.new.items ≡ out.old.items ++ tail) }
{
    put_middle(out)?;
    put_script(out)?;
    put_end(out)
}

fn put_script(out: &mut Vec<u8>) -> Result<(), AllocError>
    ensures { OnOk result (out.new.items ≡ out.old.items ++ script) }
{
    put_run(out)?;
    put_state(out)?;
    put_lanes(out)?;
    put_shown(out)
}

#[tactic(auto, unfolding(crate::specs::Page::head))]
fn put_head(out: &mut Vec<u8>) -> Result<(), AllocError>
    ensures { OnOk result (out.new.items ≡ out.old.items ++ head) }
{
    out.extend_from_slice(HEAD.as_bytes())
}

#[tactic(auto, unfolding(crate::specs::Page::middle))]
fn put_middle(out: &mut Vec<u8>) -> Result<(), AllocError>
    ensures { OnOk result (out.new.items ≡ out.old.items ++ middle) }
{
    out.extend_from_slice(MIDDLE.as_bytes())
}

#[tactic(auto, unfolding(crate::specs::Page::run_script))]
fn put_run(out: &mut Vec<u8>) -> Result<(), AllocError>
    ensures { OnOk result (out.new.items ≡ out.old.items ++ run_script) }
{
    out.extend_from_slice(RUN.as_bytes())
}

#[tactic(auto, unfolding(crate::specs::Page::state_script))]
fn put_state(out: &mut Vec<u8>) -> Result<(), AllocError>
    ensures { OnOk result (out.new.items ≡ out.old.items ++ state_script) }
{
    out.extend_from_slice(STATE.as_bytes())
}

#[tactic(auto, unfolding(crate::specs::Page::lanes_script))]
fn put_lanes(out: &mut Vec<u8>) -> Result<(), AllocError>
    ensures { OnOk result (out.new.items ≡ out.old.items ++ lanes_script) }
{
    out.extend_from_slice(LANES.as_bytes())
}

#[tactic(auto, unfolding(crate::specs::Page::page_script))]
fn put_shown(out: &mut Vec<u8>) -> Result<(), AllocError>
    ensures { OnOk result (out.new.items ≡ out.old.items ++ page_script) }
{
    out.extend_from_slice(PAGE.as_bytes())
}

#[tactic(auto, unfolding(crate::specs::Page::end))]
fn put_end(out: &mut Vec<u8>) -> Result<(), AllocError>
    ensures { OnOk result (out.new.items ≡ out.old.items ++ end) }
{
    out.extend_from_slice(END.as_bytes())
}
