// An instruction in plain text.
ghost use Rattle.std.specs.Fmt.{DisplaysOnOk};
ghost use Rattle.std.specs.Prelude.{Some};
ghost use Rattle.isa.specs.Instrs.{access_text, instr_text, sum_text};

use crate::instr::Instr;
use std::fmt;

impl fmt::Display for Instr {
    ghost output = { λ instr. Some (instr_text instr) };

    fn fmt<W: fmt::Write>(&self, f: &mut fmt::Formatter<W>) -> fmt::Result {
        match *self {
            Instr::Set { target, value } => write!(f, "set r{target} {value}"),
            Instr::Add {
                target,
                left,
                right,
            } => write_sum(f, "add", target, left, right),
            Instr::Sub {
                target,
                left,
                right,
            } => write_sum(f, "sub", target, left, right),
            Instr::Branch { register, skip } => write!(f, "branch r{register} skip {skip}"),
            Instr::Load {
                target,
                base,
                displacement,
            } => write_access(f, "load", target, base, displacement),
            Instr::Store {
                source,
                base,
                displacement,
            } => write_access(f, "store", source, base, displacement),
            Instr::Commit => write!(f, "commit"),
            Instr::Reconcile => write!(f, "reconcile"),
        }
    }
}

// An instruction over three registers.
fn write_sum<W: fmt::Write>(
    f: &mut fmt::Formatter<W>,
    name: &str,
    d: u8,
    s: u8,
    c: u8,
) -> fmt::Result
    ensures { DisplaysOnOk W.Write.write_str_gives f.old result (Some (sum_text name.now d s c)) f.new }
{
    write!(f, "{name} r{d} r{s} r{c}")
}

// An instruction that reaches memory, with its address.
fn write_access<W: fmt::Write>(
    f: &mut fmt::Formatter<W>,
    name: &str,
    d: u8,
    s: u8,
    c: u8,
) -> fmt::Result
    ensures { DisplaysOnOk W.Write.write_str_gives f.old result (Some (access_text name.now d s c)) f.new }
{
    write!(f, "{name} r{d} [r{s}+{c}]")
}
