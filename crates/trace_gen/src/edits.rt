//! The file of edits, line by line.
ghost use Rattle.std.specs.Prelude.{◌≡◌, ◌++◌, ◌%◌, ◌<◌, OnOk, IfOk, string_bytes};
ghost use Rattle.std.specs.Fmt.{decimal};
ghost use Rattle.spec_input.specs.Made.{state, subnets, subnet_draws, subnet_lines, subnet_rule, register_values, register_line, register_lines, edits_made};
ghost use Rattle.trace_gen.specs.Drawn.{IsSubnet};

use crate::draws::{Draws, PORTS, SUBNETS};
use std::alloc::{AllocError, Global};
use std::fmt::Write;

// The priority of the first subnet's rule. Those of the others follow.
const FIRST_PRIORITY: u32 = 100;

const REGISTER_VALUES: u32 = 16;

/// What is drawn for the rule of a subnet 10.A.B.0/24: A, B, and the value that is put into the register.
#[derive(Clone, Copy)]
pub struct Subnet {
    second: u32,
    third: u32,
    value: u32,
}

#[tactic(auto, unfolding(spec_input::specs::Made::state))]
fn draw_subnet(draws: &mut Draws) -> Subnet
    ensures subnet { IsSubnet draws.old.state result }
    ensures state { draws.new.state ≡ state draws.old.state subnet_draws }
{
    let second = draws.next() % 4;
    let third = draws.next() % 16;
    let value = draws.next() % 16;
    Subnet {
        second,
        third,
        value,
    }
}

fn push_number(text: &mut String, word: &str, number: u32) -> Result<(), AllocError>
    ensures { OnOk result (string_bytes text.new ≡ string_bytes text.old
        ++ (word.now ++ decimal number)) }
{
    text.push_str(word)?;
    write!(text, "{number}")
}

fn push_subnet(text: &mut String, place: u32, subnet: Subnet) -> Result<(), AllocError>
    requires { place < subnets }
    ensures { OnOk result (string_bytes text.new ≡ string_bytes text.old
        ++ subnet_rule place subnet.second subnet.third subnet.value) }
{
    push_number(text, "table=0,priority=", FIRST_PRIORITY + place)?;
    push_number(text, ",ip,nw_dst=10.", subnet.second)?;
    push_number(text, ".", subnet.third)?;
    push_number(text, ".0/24,actions=load:", subnet.value)?;
    text.push_str("->reg0[],resubmit(,1)\n")?;
    Ok(())
}

fn push_subnets(text: &mut String, number: u32) -> Result<(), AllocError>
    ensures { OnOk result (string_bytes text.new ≡ string_bytes text.old
        ++ subnet_lines number subnets) }
{
    let mut draws = Draws::of(number);
    'subnets: for place in 0..SUBNETS {
        let subnet = draw_subnet(&mut draws);
        push_subnet(text, place, subnet)?;
    }
    Ok(())
}

fn push_register(text: &mut String, value: u32) -> Result<(), AllocError>
    ensures { OnOk result (string_bytes text.new ≡ string_bytes text.old ++ register_line value) }
{
    push_number(text, "table=1,priority=10,udp,reg0=", value)?;
    push_number(text, ",actions=output:", value % PORTS + 1)?;
    text.push_str("\n")?;
    Ok(())
}

fn push_registers(text: &mut String) -> Result<(), AllocError>
    ensures { OnOk result (string_bytes text.new ≡ string_bytes text.old
        ++ register_lines register_values) }
{
    'values: for value in 0..REGISTER_VALUES {
        push_register(text, value)?;
    }
    Ok(())
}

/// The file of edits. It takes memory for its bytes.
pub fn edits_made(alloc: Global, number: u32) -> Result<Vec<u8>, AllocError>
    ensures { IfOk result (λ edits. edits.items ≡ edits_made number) }
{
    let mut text = String::new(alloc);
    push_subnets(&mut text, number)?;
    push_registers(&mut text)?;
    text.push_str("table=0,priority=0,actions=drop\nsync 0\n")?;
    Ok(text.into_bytes())
}
