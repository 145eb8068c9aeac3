//! The one list of the instructions, which the bodies of `decode`, `encode` and `write_text` and the
//! step of a machine expand.

/// Hands the rows to a macro: `rows!(name!(more))` is `name! { [more] rows }`.
///
/// A row has the variant; the least extension that has it; its name in a text, and how the operands
/// follow it there; the form of its words, which is also the fields of the variant; the codes of its
/// words, in the order opcode, funct3, funct7, or the whole word; and what the machine does at it: a
/// branch under a condition, an access to memory, a value of two operands put into rd, or a step of its
/// own.
#[macro_export]
macro_rules! rows {
    ($use:ident!($($more:tt)*)) => { $use! { [$($more)*]
        Lui    I  ("lui" upper)          u     (0b0110111)                   (load_upper),
        Auipc  I  ("auipc" upper)        u     (0b0010111)                   (add_upper_to_pc),
        Jal    I  ("jal" jump)           j     (0b1101111)                   (jump),
        Jalr   I  ("jalr" address)       i     (0b1100111, 0b000)            (jump_register),
        Beq    I  ("beq" number)         b     (0b1100011, 0b000)            (branch equal),
        Bne    I  ("bne" number)         b     (0b1100011, 0b001)            (branch not_equal),
        Blt    I  ("blt" number)         b     (0b1100011, 0b100)            (branch less_than),
        Bge    I  ("bge" number)         b     (0b1100011, 0b101)            (branch at_least),
        Bltu   I  ("bltu" number)        b     (0b1100011, 0b110)            (branch less_than_unsigned),
        Bgeu   I  ("bgeu" number)        b     (0b1100011, 0b111)            (branch at_least_unsigned),
        Lb     I  ("lb" address)         i     (0b0000011, 0b000)            (access load_byte),
        Lh     I  ("lh" address)         i     (0b0000011, 0b001)            (access load_half),
        Lw     I  ("lw" address)         i     (0b0000011, 0b010)            (access load_word),
        Lbu    I  ("lbu" address)        i     (0b0000011, 0b100)            (access load_byte_unsigned),
        Lhu    I  ("lhu" address)        i     (0b0000011, 0b101)            (access load_half_unsigned),
        Sb     I  ("sb" address)         s     (0b0100011, 0b000)            (access store_byte),
        Sh     I  ("sh" address)         s     (0b0100011, 0b001)            (access store_half),
        Sw     I  ("sw" address)         s     (0b0100011, 0b010)            (access store_word),
        Addi   I  ("addi" number)        i     (0b0010011, 0b000)            (put add),
        Slti   I  ("slti" number)        i     (0b0010011, 0b010)            (put set_less_than),
        Sltiu  I  ("sltiu" number)       i     (0b0010011, 0b011)            (put set_less_than_unsigned),
        Xori   I  ("xori" number)        i     (0b0010011, 0b100)            (put xor),
        Ori    I  ("ori" number)         i     (0b0010011, 0b110)            (put or),
        Andi   I  ("andi" number)        i     (0b0010011, 0b111)            (put and),
        Slli   I  ("slli" number)        shift (0b0010011, 0b001, 0b0000000) (put shift_left_logical),
        Srli   I  ("srli" number)        shift (0b0010011, 0b101, 0b0000000) (put shift_right_logical),
        Srai   I  ("srai" number)        shift (0b0010011, 0b101, 0b0100000) (put shift_right_arithmetic),
        Add    I  ("add" registers)      r     (0b0110011, 0b000, 0b0000000) (put add),
        Sub    I  ("sub" registers)      r     (0b0110011, 0b000, 0b0100000) (put subtract),
        Sll    I  ("sll" registers)      r     (0b0110011, 0b001, 0b0000000) (put shift_left_logical),
        Slt    I  ("slt" registers)      r     (0b0110011, 0b010, 0b0000000) (put set_less_than),
        Sltu   I  ("sltu" registers)     r     (0b0110011, 0b011, 0b0000000) (put set_less_than_unsigned),
        Xor    I  ("xor" registers)      r     (0b0110011, 0b100, 0b0000000) (put xor),
        Srl    I  ("srl" registers)      r     (0b0110011, 0b101, 0b0000000) (put shift_right_logical),
        Sra    I  ("sra" registers)      r     (0b0110011, 0b101, 0b0100000) (put shift_right_arithmetic),
        Or     I  ("or" registers)       r     (0b0110011, 0b110, 0b0000000) (put or),
        And    I  ("and" registers)      r     (0b0110011, 0b111, 0b0000000) (put and),
        Mul    Im ("mul" registers)      r     (0b0110011, 0b000, 0b0000001) (put multiply),
        Mulh   Im ("mulh" registers)     r     (0b0110011, 0b001, 0b0000001) (put multiply_high),
        Mulhsu Im ("mulhsu" registers)   r     (0b0110011, 0b010, 0b0000001) (put multiply_high_signed_unsigned),
        Mulhu  Im ("mulhu" registers)    r     (0b0110011, 0b011, 0b0000001) (put multiply_high_unsigned),
        Div    Im ("div" registers)      r     (0b0110011, 0b100, 0b0000001) (put divide),
        Divu   Im ("divu" registers)     r     (0b0110011, 0b101, 0b0000001) (put divide_unsigned),
        Rem    Im ("rem" registers)      r     (0b0110011, 0b110, 0b0000001) (put remainder),
        Remu   Im ("remu" registers)     r     (0b0110011, 0b111, 0b0000001) (put remainder_unsigned),
        Fence  I  ("fence" fence)        fence (0b0001111, 0b000)            (nothing),
        Ecall  I  ("ecall" name)         whole (0x00000073)                  (environment_call),
        Ebreak I  ("ebreak" name)        whole (0x00100073)                  (breakpoint),
    } };
}

/// A row's variant with its fields in their order, as a pattern or as a value. A form with fewer than
/// three fields leaves the last names out.
#[macro_export]
macro_rules! shape {
    ($name:ident u $a:ident $b:ident $c:ident) => {
        $crate::Inst::$name { rd: $a, upper: $b }
    };
    ($name:ident j $a:ident $b:ident $c:ident) => {
        $crate::Inst::$name { rd: $a, offset: $b }
    };
    ($name:ident i $a:ident $b:ident $c:ident) => {
        $crate::Inst::$name { rd: $a, rs1: $b, imm: $c }
    };
    ($name:ident b $a:ident $b:ident $c:ident) => {
        $crate::Inst::$name { rs1: $a, rs2: $b, offset: $c }
    };
    ($name:ident s $a:ident $b:ident $c:ident) => {
        $crate::Inst::$name { rs1: $a, rs2: $b, imm: $c }
    };
    ($name:ident shift $a:ident $b:ident $c:ident) => {
        $crate::Inst::$name { rd: $a, rs1: $b, shamt: $c }
    };
    ($name:ident r $a:ident $b:ident $c:ident) => {
        $crate::Inst::$name { rd: $a, rs1: $b, rs2: $c }
    };
    ($name:ident fence $a:ident $b:ident $c:ident) => {
        $crate::Inst::$name { rd: $a, rs1: $b, bits: $c }
    };
    ($name:ident whole $a:ident $b:ident $c:ident) => {
        $crate::Inst::$name
    };
}
