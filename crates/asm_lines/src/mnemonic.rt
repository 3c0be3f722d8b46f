//! Mnemonics.

ghost use Rattle.std.specs.Prelude.{◌≡◌, ◌≤◌, length};
ghost use Rattle.std.specs.Option.{option_map};
ghost use Rattle.asm_lines.specs.Names.{plain_mnemonic, mnemonic_of, name_of, suffix_of, order_of, with_order};
ghost use Rattle.asm_lines.specs.Written.{mnemonic_of_insn, order_of_insn};

use crate::text::cut_last;
use rv_table::{AmoOp, BranchOp, ImmediateOp, Insn, LoadOp, RegisterOp, ShiftOp, StoreOp, UpperOp};

/// The first word of an instruction: its operation, grouped by the shape that determines the operands.
#[derive(Clone, Copy, Debug, PartialEq, Eq, Drop)]
pub enum Mnemonic {
    /// As `add rd, rs1, rs2`.
    Op(RegisterOp),
    /// As `addi rd, rs1, imm`.
    OpImm(ImmediateOp),
    /// As `slli rd, rs1, amount`.
    Shift(ShiftOp),
    /// As `lw rd, imm(rs1)`.
    Load(LoadOp),
    /// As `sw rs2, imm(rs1)`.
    Store(StoreOp),
    /// As `beq rs1, rs2, target`.
    Branch(BranchOp),
    /// As `lui rd, upper`.
    Upper(UpperOp),
    /// `jal rd, target`.
    Jal,
    /// `jalr rd, imm(rs1)`.
    Jalr,
    /// `fence rd, rs1, ordering`.
    Fence,
    /// `ecall`.
    Ecall,
    /// `ebreak`.
    Ebreak,
    /// As `amoadd.w rd, rs2, (rs1)`.
    Amo(AmoOp),
}

/// The table of mnemonics for both directions, in the order of the table of instructions. It passes each row to the
/// macro `$form`.
macro_rules! mnemonics {
    ($form:ident $($subject:tt)*) => {
        $form! {
            [$($subject)*]
            Upper(UpperOp::Lui) "lui",
            Upper(UpperOp::Auipc) "auipc",
            Jal "jal",
            Jalr "jalr",
            Branch(BranchOp::Beq) "beq",
            Branch(BranchOp::Bne) "bne",
            Branch(BranchOp::Blt) "blt",
            Branch(BranchOp::Bge) "bge",
            Branch(BranchOp::Bltu) "bltu",
            Branch(BranchOp::Bgeu) "bgeu",
            Load(LoadOp::Lb) "lb",
            Load(LoadOp::Lh) "lh",
            Load(LoadOp::Lw) "lw",
            Load(LoadOp::Lbu) "lbu",
            Load(LoadOp::Lhu) "lhu",
            Store(StoreOp::Sb) "sb",
            Store(StoreOp::Sh) "sh",
            Store(StoreOp::Sw) "sw",
            OpImm(ImmediateOp::Addi) "addi",
            OpImm(ImmediateOp::Slti) "slti",
            OpImm(ImmediateOp::Sltiu) "sltiu",
            OpImm(ImmediateOp::Xori) "xori",
            OpImm(ImmediateOp::Ori) "ori",
            OpImm(ImmediateOp::Andi) "andi",
            Shift(ShiftOp::Slli) "slli",
            Shift(ShiftOp::Srli) "srli",
            Shift(ShiftOp::Srai) "srai",
            Op(RegisterOp::Add) "add",
            Op(RegisterOp::Sub) "sub",
            Op(RegisterOp::Sll) "sll",
            Op(RegisterOp::Slt) "slt",
            Op(RegisterOp::Sltu) "sltu",
            Op(RegisterOp::Xor) "xor",
            Op(RegisterOp::Srl) "srl",
            Op(RegisterOp::Sra) "sra",
            Op(RegisterOp::Or) "or",
            Op(RegisterOp::And) "and",
            Fence "fence",
            Ecall "ecall",
            Ebreak "ebreak",
            Amo(AmoOp::Add) "amoadd.w",
            Amo(AmoOp::Swap) "amoswap.w",
            Amo(AmoOp::Xor) "amoxor.w",
            Amo(AmoOp::Or) "amoor.w",
            Amo(AmoOp::And) "amoand.w",
            Amo(AmoOp::Min) "amomin.w",
            Amo(AmoOp::Max) "amomax.w",
            Amo(AmoOp::Minu) "amominu.w",
            Amo(AmoOp::Maxu) "amomaxu.w",
            Op(RegisterOp::Mul) "mul",
            Op(RegisterOp::Mulh) "mulh",
            Op(RegisterOp::Mulhsu) "mulhsu",
            Op(RegisterOp::Mulhu) "mulhu",
            Op(RegisterOp::Div) "div",
            Op(RegisterOp::Divu) "divu",
            Op(RegisterOp::Rem) "rem",
            Op(RegisterOp::Remu) "remu",
        }
    };
}

/// The mnemonics of the table's rows.
macro_rules! values {
    ([] $($shape:ident $(($op:path))? $name:literal,)*) => {
        [$(Mnemonic::$shape $(($op))?),*]
    };
}

/// The text of the mnemonic `$mnemonic`.
macro_rules! name_of {
    ([$mnemonic:expr] $($shape:ident $(($op:path))? $name:literal,)*) => {
        match $mnemonic {
            $(Mnemonic::$shape $(($op))? => $name,)*
        }
    };
}

/// The ordering of an atomic memory operation: its bits aq (acquire) and rl (release).
#[derive(Clone, Copy, Debug, PartialEq, Eq, Drop)]
pub struct Order {
    pub aq: bool,
    pub rl: bool,
}

impl Order {
    /// The suffix of a mnemonic with this ordering.
    pub fn suffix(self) -> &'static str
        ensures suffix { result.now ≡ suffix_of self }
        ensures short { length result.now ≤ 5 }
    {
        match (self.aq, self.rl) {
            (false, false) => "",
            (true, false) => ".aq",
            (false, true) => ".rl",
            (true, true) => ".aqrl",
        }
    }

    /// The ordering of an instruction. Only an atomic memory operation has bits set.
    pub fn of(insn: &Insn) -> Order
        ensures { result ≡ order_of_insn insn.now }
    {
        match *insn {
            Insn::Amo { aq, rl, .. } => Order { aq, rl },
            _ => Order {
                aq: false,
                rl: false,
            },
        }
    }

    /// The ordering with this suffix, which follows the last dot of a word.
    fn find(suffix: &[u8]) -> Option<Order>
        ensures { result ≡ order_of suffix.now }
    {
        match suffix {
            b"aq" => Some(Order {
                aq: true,
                rl: false,
            }),
            b"rl" => Some(Order {
                aq: false,
                rl: true,
            }),
            b"aqrl" => Some(Order { aq: true, rl: true }),
            _ => None,
        }
    }
}

impl Mnemonic {
    /// All mnemonics, in the order of the table of instructions.
    pub const ALL: [Mnemonic; 57] = mnemonics!(values);

    /// The text of the mnemonic, without a suffix.
    pub fn name(self) -> &'static str
        ensures name { result.now ≡ name_of self }
        ensures short { length result.now ≤ 9 }
    {
        mnemonics!(name_of self)
    }

    /// The mnemonic of an instruction.
    pub fn of(insn: &Insn) -> Mnemonic
        ensures { result ≡ mnemonic_of_insn insn.now }
    {
        match *insn {
            Insn::Op { op, .. } => Mnemonic::Op(op),
            Insn::OpImm { op, .. } => Mnemonic::OpImm(op),
            Insn::Shift { op, .. } => Mnemonic::Shift(op),
            Insn::Load { op, .. } => Mnemonic::Load(op),
            Insn::Store { op, .. } => Mnemonic::Store(op),
            Insn::Branch { op, .. } => Mnemonic::Branch(op),
            Insn::Upper { op, .. } => Mnemonic::Upper(op),
            Insn::Jal { .. } => Mnemonic::Jal,
            Insn::Jalr { .. } => Mnemonic::Jalr,
            Insn::Fence { .. } => Mnemonic::Fence,
            Insn::Ecall => Mnemonic::Ecall,
            Insn::Ebreak => Mnemonic::Ebreak,
            Insn::Amo { op, .. } => Mnemonic::Amo(op),
        }
    }

    /// The mnemonic that is written as `word`, without a suffix.
    #[tactic(auto, unfolding(crate::specs::Names::plain_mnemonic))]
    fn find_plain(word: &[u8]) -> Option<Mnemonic>
        ensures { result ≡ plain_mnemonic word.now }
    {
        Mnemonic::ALL
            .iter()
            .copied()
            .find(|mnemonic| mnemonic.name().as_bytes() == word)
    }

    /// The mnemonic that is written as `word`, with its ordering, which only an atomic memory operation has.
    #[tactic(auto, unfolding(crate::specs::Names::mnemonic_of))]
    pub fn find(word: &[u8]) -> Option<(Mnemonic, Order)>
        ensures { result ≡ mnemonic_of word.now }
    {
        if let Some(mnemonic) = Mnemonic::find_plain(word) {
            let order = Order {
                aq: false,
                rl: false,
            };
            return Some((mnemonic, order));
        }
        let (front, suffix) = cut_last(word, b'.')?;
        match (Mnemonic::find_plain(front), Order::find(suffix)) {
            (Some(Mnemonic::Amo(op)), Some(order)) => Some((Mnemonic::Amo(op), order)),
            _ => None,
        }
    }
}
