use fcg_classfile::CodeRule;
use fcg_pool::{Instruction, next_instruction};

// What each opcode begins where it stands first, by the pages of JVMS 6.5: how many bytes, where zeros follow from the
// fourth byte on; a tableswitch, a lookupswitch, a wide; nothing.
const OPCODES: [&[u8; 16]; 16] = [
    b"1111111111111111",
    b"2323322222111111",
    b"1111111111111111",
    b"1111112222211111",
    b"1111111111111111",
    b"1111111111111111",
    b"1111111111111111",
    b"1111111111111111",
    b"1111311111111111",
    b"1111111113333333",
    b"3333333332tl1111",
    b"1133333335532311",
    b"3311w43355------",
    b"----------------",
    b"----------------",
    b"----------------",
];

// What stands where such an instruction begins a code whose next two bytes are 1 and 2: the next place and the operand.
fn begun_by(form: u8) -> Result<(u32, u16), CodeRule> {
    match form {
        b'1' => Ok((1, 0)),
        b'2' => Ok((2, 0)),
        b'3' => Ok((3, 258)),
        b'4' => Ok((4, 258)),
        b'5' => Ok((5, 258)),
        b't' => Ok((20, 258)),
        b'l' => Ok((12, 258)),
        b'w' => Err(CodeRule::BadWide),
        _ => Err(CodeRule::BadOpcode),
    }
}

fn is_known(opcode: u8, form: u8) -> bool {
    let mut code = [0; 24];
    code[0] = opcode;
    code[1] = 1;
    code[2] = 2;
    let want = begun_by(form).map(|(next, operand)| Instruction {
        opcode,
        operand,
        next,
    });
    next_instruction(&code, 0) == want
}

// The two bytes after the opcode are the padding of a switch, and no opcode that can be made wide.
#[test]
fn knows_each_opcode(rt: HostRuntime) {
    for opcode in 0..=255u8 {
        let form = OPCODES[usize::from(opcode / 16)][usize::from(opcode % 16)];
        assert!(rt; is_known(opcode, form), "at {opcode}");
    }
}

// An instruction at a place of a code, and its operand: the two bytes after its opcode.
const OPERANDS: &[(&[u8], u16, u16)] = &[
    // a wide before iload and before iinc: the opcode that is made wide, and the first byte of its index
    (&[196, 21, 1, 2], 0, 0x1501),
    (&[196, 132, 1, 2, 3, 4], 0, 0x8401),
    // a tableswitch and a lookupswitch without padding: the first bytes of the default
    (
        &[0, 0, 0, 170, 1, 2, 3, 4, 0, 0, 0, 0, 0, 0, 0, 0, 0, 0, 0, 0],
        3,
        258,
    ),
    (&[0, 0, 0, 171, 1, 2, 3, 4, 0, 0, 0, 0], 3, 258),
];

fn has_operand(code: &[u8], pc: u16, operand: u16) -> bool {
    usize::from(pc) < code.len()
        && next_instruction(code, pc).is_ok_and(|instruction| instruction.operand == operand)
}

#[test]
fn tells_operands(rt: HostRuntime) {
    for (code, pc, operand) in OPERANDS {
        assert!(rt; has_operand(code, *pc, *operand), "{code:?}");
    }
}

// How many nops stand before a tableswitch with one offset, and where the invokestatic after it begins.
const PADDED: &[(usize, usize)] = &[(0, 20), (1, 20), (2, 20), (3, 20), (4, 24)];

fn padded_code(nops: usize, after: usize) -> [u8; 27] {
    let mut code = [0; 27];
    if let Some(switch) = code.get_mut(nops) {
        *switch = 170;
    }
    if let Some(call) = code.get_mut(after) {
        *call = 184;
    }
    code
}

// The place after so many instructions.
fn place_after(code: &[u8; 27], count: usize) -> Option<u16> {
    let mut pc: u16 = 0;
    for _ in 0..count {
        if pc >= 27 {
            return None;
        }
        let next = next_instruction(code, pc).ok()?.next;
        pc = u16::try_from(next).ok()?;
    }
    Some(pc)
}

fn is_call(code: &[u8; 27], pc: u16) -> bool {
    let want = Instruction {
        opcode: 184,
        operand: 0,
        next: u32::from(pc) + 3,
    };
    pc < 27 && next_instruction(code, pc) == Ok(want)
}

fn is_padded(nops: usize, after: usize) -> bool {
    let code = padded_code(nops, after);
    match place_after(&code, nops.saturating_add(1)) {
        Some(pc) => usize::from(pc) == after && is_call(&code, pc),
        None => false,
    }
}

#[test]
fn pads_from_the_start_of_the_code(rt: HostRuntime) {
    for (nops, after) in PADDED {
        assert!(rt; is_padded(*nops, *after), "after {nops}");
    }
}

// An instruction with zeros after its first bytes, cut at each length: it is cut below the given length, and from
// there on as wanted.
const CUT: &[([u8; 16], usize, Result<u32, CodeRule>)] = &[
    // a lookupswitch with 0, 2, 2^31 - 1, 2^31 and -1 pairs
    (
        [171, 9, 9, 9, 0, 0, 0, 0, 0, 0, 0, 0, 0, 0, 0, 0],
        12,
        Ok(12),
    ),
    (
        [171, 0, 0, 0, 0, 0, 0, 0, 0, 0, 0, 2, 0, 0, 0, 0],
        28,
        Ok(28),
    ),
    (
        [171, 0, 0, 0, 0, 0, 0, 0, 127, 255, 255, 255, 0, 0, 0, 0],
        33,
        Ok(0),
    ),
    (
        [171, 0, 0, 0, 0, 0, 0, 0, 128, 0, 0, 0, 0, 0, 0, 0],
        12,
        Err(CodeRule::BadSwitch),
    ),
    (
        [171, 0, 0, 0, 0, 0, 0, 0, 255, 255, 255, 255, 0, 0, 0, 0],
        12,
        Err(CodeRule::BadSwitch),
    ),
    // a tableswitch from -1 to 1, from 7 to 7, from -2^31 to 2^31 - 1, from 1 to 0, from 0 to -1
    (
        [170, 9, 9, 9, 0, 0, 0, 0, 255, 255, 255, 255, 0, 0, 0, 1],
        28,
        Ok(28),
    ),
    (
        [170, 0, 0, 0, 0, 0, 0, 0, 0, 0, 0, 7, 0, 0, 0, 7],
        20,
        Ok(20),
    ),
    (
        [170, 0, 0, 0, 0, 0, 0, 0, 128, 0, 0, 0, 127, 255, 255, 255],
        33,
        Ok(0),
    ),
    (
        [170, 0, 0, 0, 0, 0, 0, 0, 0, 0, 0, 1, 0, 0, 0, 0],
        16,
        Err(CodeRule::BadSwitch),
    ),
    (
        [170, 0, 0, 0, 0, 0, 0, 0, 0, 0, 0, 0, 255, 255, 255, 255],
        16,
        Err(CodeRule::BadSwitch),
    ),
    // wide before iload, astore, ret, iinc, nop, bipush, iload_0 and wide
    (
        [196, 21, 0, 1, 0, 0, 0, 0, 0, 0, 0, 0, 0, 0, 0, 0],
        4,
        Ok(4),
    ),
    (
        [196, 58, 0, 1, 0, 0, 0, 0, 0, 0, 0, 0, 0, 0, 0, 0],
        4,
        Ok(4),
    ),
    (
        [196, 169, 0, 1, 0, 0, 0, 0, 0, 0, 0, 0, 0, 0, 0, 0],
        4,
        Ok(4),
    ),
    (
        [196, 132, 0, 1, 0, 1, 0, 0, 0, 0, 0, 0, 0, 0, 0, 0],
        6,
        Ok(6),
    ),
    (
        [196, 0, 0, 0, 0, 0, 0, 0, 0, 0, 0, 0, 0, 0, 0, 0],
        2,
        Err(CodeRule::BadWide),
    ),
    (
        [196, 16, 0, 0, 0, 0, 0, 0, 0, 0, 0, 0, 0, 0, 0, 0],
        2,
        Err(CodeRule::BadWide),
    ),
    (
        [196, 26, 0, 0, 0, 0, 0, 0, 0, 0, 0, 0, 0, 0, 0, 0],
        2,
        Err(CodeRule::BadWide),
    ),
    (
        [196, 196, 0, 0, 0, 0, 0, 0, 0, 0, 0, 0, 0, 0, 0, 0],
        2,
        Err(CodeRule::BadWide),
    ),
    // an invokeinterface, and an opcode that nothing has
    ([185, 0, 1, 1, 0, 0, 0, 0, 0, 0, 0, 0, 0, 0, 0, 0], 5, Ok(5)),
    (
        [202, 0, 0, 0, 0, 0, 0, 0, 0, 0, 0, 0, 0, 0, 0, 0],
        1,
        Err(CodeRule::BadOpcode),
    ),
];

// The first length at which it is anything else, if there is one.
fn first_unlike(front: &[u8; 16], whole: usize, want: Result<u32, CodeRule>) -> Option<usize> {
    let mut code = [0; 32];
    code[..16].copy_from_slice(front);
    for end in 1..=32 {
        let want = if end < whole {
            Err(CodeRule::CodeCut)
        } else {
            want
        };
        if next_instruction(&code[..end], 0).map(|instruction| instruction.next) != want {
            return Some(end);
        }
    }
    None
}

#[test]
fn tells_what_is_broken(rt: HostRuntime) {
    for (front, whole, want) in CUT {
        assert!(rt;
            first_unlike(front, *whole, *want).is_none(),
            "at {front:?}"
        );
    }
}
