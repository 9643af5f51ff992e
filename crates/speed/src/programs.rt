// The programs of compare/programs.txt: the fitted pages of each, its words, address and word, and its line words.

pub const QUIET_LINES: [u16; 16] = [
    0x0000, 0x0000, 0x0000, 0x0000, 0x0000, 0x0000, 0x0000, 0x0000, 0x0000, 0x0000, 0x0000, 0x0000,
    0x0000, 0x0000, 0x0000, 0x0000,
];

pub const SOB_PAGES: [u8; 1] = [0x00];

pub const SOB: [u32; 5] = [
    0x0016_0080, // PC at power-up
    0x0080_b5c1, // MOV #1000,R1
    0x0082_1000,
    0x0084_7641, // SOB R1,01 back to 0084
    0x0086_01fc, // BR FC back to 0080
];

pub const COPY_PAGES: [u8; 3] = [0x00, 0x02, 0x03];

pub const COPY: [u32; 14] = [
    0x0016_0080, // PC at power-up
    0x0080_b5c1, // MOV #0200,R1
    0x0082_0200,
    0x0084_b5c2, // MOV #0300,R2
    0x0086_0300,
    0x0088_b5c3, // MOV #0080,R3
    0x008a_0080,
    0x008c_0c9f, // INC @#0200 so that each pass copies something new
    0x008e_0200,
    0x0090_b452, // MOV (R1)+,(R2)+
    0x0092_76c2, // SOB R3,02 back to 0090
    0x0094_01f5, // BR F5 back to 0080
    0x0202_1234, // a word to copy
    0x02fe_abcd, // the last word to copy
];

pub const CALL_PAGES: [u8; 3] = [0x00, 0x01, 0x03];

pub const CALL: [u32; 15] = [
    0x0016_0080, // PC at power-up
    0x0080_b5c6, // MOV #0400,SP
    0x0082_0400,
    0x0084_715f, // JSR R5,@#0100
    0x0086_0100,
    0x0088_0800, // ADDI 01,R0
    0x008a_01fc, // BR FC back to 0084
    0x0100_000a, // SAVE
    0x0102_71df, // JSR PC,@#010C
    0x0104_010c,
    0x0106_0801, // ADDI 02,R0 lost again by REST
    0x0108_000c, // REST
    0x010a_001d, // RTN R5
    0x010c_0c82, // INC R2 lost again by REST
    0x010e_001f, // RTN PC
];

pub const BYTE_PAGES: [u8; 3] = [0x00, 0x02, 0x03];

pub const BYTE: [u32; 19] = [
    0x0016_0080, // PC at power-up
    0x0080_b5c1, // MOV #0200,R1 the pointers, upwards
    0x0082_0200,
    0x0084_b5c2, // MOV #0301,R2 the bytes, upwards
    0x0086_0301,
    0x0088_08f3, // MOVI 04,R3
    0x008a_d499, // MOVB (R2)+,@(R1)+
    0x008c_8ca9, // INCB @-(R1)
    0x008e_e644, // BISB @(R1)+,R4
    0x0090_8a72, // ROLB 0007(R2)
    0x0092_0007,
    0x0094_1f40, // ADD @0200(R5),R0
    0x0096_0200,
    0x0098_76c8, // SOB R3,08 back to 008A
    0x009a_01f2, // BR F2 back to 0080
    0x0200_0310, // the pointers
    0x0202_0301,
    0x0204_0313,
    0x0206_0309,
];

pub const STORM_PAGES: [u8; 2] = [0x00, 0x03];

pub const STORM: [u32; 13] = [
    0x0012_0096, // PC after a bus error
    0x0016_0080, // PC at power-up
    0x0080_b5c6, // MOV #0304,SP
    0x0082_0304,
    0x0084_b5c1, // MOV #8000,R1 nothing is fitted there
    0x0086_8000,
    0x0088_000a, // SAVE the third push is blank, two are taken back
    0x008a_b409, // MOV (R0)+,@R1 the increment is dropped
    0x008c_0c61, // NEG -(R1) the decrement is dropped
    0x008e_0c80, // INC R0
    0x0090_01fb, // BR FB back to 0088
    0x0096_0c85, // INC R5 counts the bus errors
    0x0098_000f, // RTT to the op code after the one dropped
];

pub const LINES_PAGES: [u8; 2] = [0x00, 0x03];

pub const LINES_LINES: [u16; 16] = [
    0x0000, 0x0100, 0x0000, 0x0100, 0x0000, 0x0100, 0x0000, 0x0100, 0x0000, 0x0100, 0x0000, 0x0100,
    0x0000, 0x0100, 0x0000, 0x0101,
];

pub const LINES: [u32; 11] = [
    0x0016_0080, // PC at power-up
    0x0028_0030, // where the table of I0 is
    0x0032_006e, // device 1: PC 00A0
    0x0080_b5c6, // MOV #0400,SP
    0x0082_0400,
    0x0084_0002, // IEN
    0x0086_0c80, // INC R0
    0x0088_0c41, // NEG R1
    0x008a_01fd, // BR FD back to 0086
    0x00a0_0c85, // INC R5 counts the interrupts
    0x00a2_000f, // RTT
];

pub const BLOCK_PAGES: [u8; 65] = [
    0x00, 0x20, 0x21, 0x22, 0x23, 0x24, 0x25, 0x26, 0x27, 0x28, 0x29, 0x2a, 0x2b, 0x2c, 0x2d, 0x2e,
    0x2f, 0x30, 0x31, 0x32, 0x33, 0x34, 0x35, 0x36, 0x37, 0x38, 0x39, 0x3a, 0x3b, 0x3c, 0x3d, 0x3e,
    0x3f, 0x40, 0x41, 0x42, 0x43, 0x44, 0x45, 0x46, 0x47, 0x48, 0x49, 0x4a, 0x4b, 0x4c, 0x4d, 0x4e,
    0x4f, 0x50, 0x51, 0x52, 0x53, 0x54, 0x55, 0x56, 0x57, 0x58, 0x59, 0x5a, 0x5b, 0x5c, 0x5d, 0x5e,
    0x5f,
];

pub const BLOCK: [u32; 13] = [
    0x0016_0080, // PC at power-up
    0x0080_b5c0, // MOV #1000,R0 4,096 elements
    0x0082_1000,
    0x0084_b5c1, // MOV #2000,R1
    0x0086_2000,
    0x0088_b5c2, // MOV #4000,R2
    0x008a_4000,
    0x008c_0c9f, // INC @#2000 so that each pass moves something new
    0x008e_2000,
    0x0090_0e0a, // MBWU R1,R2
    0x0092_01f6, // BR F6 back to 0080
    0x2002_1234, // a word to move
    0x3ffe_abcd, // the last word to move
];
