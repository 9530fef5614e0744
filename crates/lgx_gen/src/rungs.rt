// A rung with drawn numbers.
ghost use Rattle.std.specs.Prelude.{◌≡◌, ◌++◌, ◌<◌, OnOk, codes};
ghost use Rattle.lgx_gen.specs.Draws.{state_after};
ghost use Rattle.lgx_gen.specs.Rungs.{filled, form, rung};

use crate::draws::Draws;
use crate::pieces::push_numbered;
use crate::sizes::{TAGS, TIMERS};
use lgx_num::Memory;

/// The forms of a rung.
const FORMS: u32 = 8;

/// The numbers that a rung's names and operands have.
#[derive(Clone, Copy)]
struct Numbers {
    i: u32,
    j: u32,
    k: u32,
}

#[tactic(auto, unfolding(crate::specs::Rungs::filled))]
fn push_coil(text: &mut Vec<u8>, with: Numbers) -> Result<(), Memory>
    ensures { OnOk result (text.new.items ≡ text.old.items ++ filled (codes "XIC(ai)OTE(aj);") with.i with.j with.k) }
{
    push_numbered(text, b"XIC(a", with.i)?;
    push_numbered(text, b")OTE(a", with.j)?;
    text.extend_from_slice(b");")?;
    Ok(())
}

#[tactic(auto, unfolding(crate::specs::Rungs::filled))]
fn push_timer(text: &mut Vec<u8>, with: Numbers) -> Result<(), Memory>
    ensures { OnOk result (text.new.items ≡ text.old.items ++ filled (codes "[XIC(ai),XIO(aj)]TON(tk,?,?);") with.i with.j with.k) }
{
    push_numbered(text, b"[XIC(a", with.i)?;
    push_numbered(text, b"),XIO(a", with.j)?;
    push_numbered(text, b")]TON(t", with.k)?;
    text.extend_from_slice(b",?,?);")?;
    Ok(())
}

#[tactic(auto, unfolding(crate::specs::Rungs::filled))]
fn push_counter(text: &mut Vec<u8>, with: Numbers) -> Result<(), Memory>
    ensures { OnOk result (text.new.items ≡ text.old.items ++ filled (codes "XIC(tk.DN)CTU(ck,?,?);") with.i with.j with.k) }
{
    push_numbered(text, b"XIC(t", with.k)?;
    push_numbered(text, b".DN)CTU(c", with.k)?;
    text.extend_from_slice(b",?,?);")?;
    Ok(())
}

#[tactic(auto, unfolding(crate::specs::Rungs::filled))]
fn push_addition(text: &mut Vec<u8>, with: Numbers) -> Result<(), Memory>
    ensures { OnOk result (text.new.items ≡ text.old.items ++ filled (codes "ADD(ni,1,nj);") with.i with.j with.k) }
{
    push_numbered(text, b"ADD(n", with.i)?;
    push_numbered(text, b",1,n", with.j)?;
    text.extend_from_slice(b");")?;
    Ok(())
}

#[tactic(auto, unfolding(crate::specs::Rungs::filled))]
fn push_move(text: &mut Vec<u8>, with: Numbers) -> Result<(), Memory>
    ensures { OnOk result (text.new.items ≡ text.old.items ++ filled (codes "XIC(Local:1:I[k].i)MOV(ni,nj);") with.i with.j with.k) }
{
    push_numbered(text, b"XIC(Local:1:I[", with.k)?;
    push_numbered(text, b"].", with.i)?;
    push_numbered(text, b")MOV(n", with.i)?;
    push_numbered(text, b",n", with.j)?;
    text.extend_from_slice(b");")?;
    Ok(())
}

#[tactic(auto, unfolding(crate::specs::Rungs::filled))]
fn push_reset(text: &mut Vec<u8>, with: Numbers) -> Result<(), Memory>
    ensures { OnOk result (text.new.items ≡ text.old.items ++ filled (codes "XIC(ck.DN)RES(ck);") with.i with.j with.k) }
{
    push_numbered(text, b"XIC(c", with.k)?;
    push_numbered(text, b".DN)RES(c", with.k)?;
    text.extend_from_slice(b");")?;
    Ok(())
}

#[tactic(auto, unfolding(crate::specs::Rungs::filled))]
fn push_product(text: &mut Vec<u8>, with: Numbers) -> Result<(), Memory>
    ensures { OnOk result (text.new.items ≡ text.old.items ++ filled (codes "UID()MUL(ni,3,nj)UIE();") with.i with.j with.k) }
{
    push_numbered(text, b"UID()MUL(n", with.i)?;
    push_numbered(text, b",3,n", with.j)?;
    text.extend_from_slice(b")UIE();")?;
    Ok(())
}

#[tactic(auto, unfolding(crate::specs::Rungs::filled))]
fn push_copy(text: &mut Vec<u8>, with: Numbers) -> Result<(), Memory>
    ensures { OnOk result (text.new.items ≡ text.old.items ++ filled (codes "CPS(Local:1:I[0],w[0],4);") with.i with.j with.k) }
{
    text.extend_from_slice(b"CPS(Local:1:I[0],w[0],4);")?;
    Ok(())
}

/// Adds the form of a number, with numbers in it.
#[tactic(auto, unfolding(crate::specs::Rungs::form))]
fn push_form(text: &mut Vec<u8>, number: u32, with: Numbers) -> Result<(), Memory>
    requires { number < FORMS }
    ensures { OnOk result (text.new.items ≡ text.old.items ++ filled (form number) with.i with.j with.k) }
{
    match number {
        0 => push_coil(text, with),
        1 => push_timer(text, with),
        2 => push_counter(text, with),
        3 => push_addition(text, with),
        4 => push_move(text, with),
        5 => push_reset(text, with),
        6 => push_product(text, with),
        _ => push_copy(text, with),
    }
}

/// Adds a drawn rung.
pub(crate) fn push_rung(text: &mut Vec<u8>, draws: &mut Draws) -> Result<(), Memory>
    ensures text { OnOk result (text.new.items ≡ text.old.items ++ rung draws.old 0) }
    ensures draws { draws.new ≡ state_after 4 draws.old }
{
    let number = draws.below(FORMS);
    let i = draws.below(TAGS);
    let j = draws.below(TAGS);
    let k = draws.below(TIMERS);
    push_form(text, number, Numbers { i, j, k })
}
