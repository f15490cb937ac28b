// Instructions.
mod decode;
mod show;

// An instruction of a litmus program. Registers are named by number.
#[derive(Clone, Copy, PartialEq, Eq, Debug)]
pub enum Instr {
    // target becomes value
    Set {
        target: u8,
        value: u8,
    },
    // target becomes left plus right
    Add {
        target: u8,
        left: u8,
        right: u8,
    },
    // target becomes left minus right
    Sub {
        target: u8,
        left: u8,
        right: u8,
    },
    // if the register is 0, skip so many instructions
    Branch {
        register: u8,
        skip: u8,
    },
    // target becomes the word at the address base plus displacement
    Load {
        target: u8,
        base: u8,
        displacement: u8,
    },
    // the word at the address base plus displacement becomes source
    Store {
        source: u8,
        base: u8,
        displacement: u8,
    },
    // the fence that waits for the processor's own stores
    Commit,
    // the fence that lets go of the processor's stale copies
    Reconcile,
}
