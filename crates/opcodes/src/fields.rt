// The fields of an op code, as the manual draws them at the head of each format. Each stands under its own name: one
// function with the place and the size as const parameters would leave the same names around it, and be no plainer.
ghost use Rattle.std.specs.Prelude.{◌≡◌};
ghost use Rattle.opcodes.specs.Fields as Spec;

// DST of formats 7, 9 and 10: MODE.
pub fn destination_mode(op: u16) -> u16
    ensures { result ≡ Spec.destination_mode op }
{
    op / 8 % 8
}

// DST of formats 7, 9 and 10: REG.
pub fn destination_register(op: u16) -> u16
    ensures { result ≡ Spec.destination_register op }
{
    op % 8
}

// SRC of format 10: MODE.
pub fn source_mode(op: u16) -> u16
    ensures { result ≡ Spec.source_mode op }
{
    op / 512 % 8
}

// SRC of format 10: REG.
pub fn source_register(op: u16) -> u16
    ensures { result ≡ Spec.source_register op }
{
    op / 64 % 8
}

// REG of formats 6 and 9.
pub fn register(op: u16) -> u16
    ensures { result ≡ Spec.register op }
{
    op / 64 % 8
}

// OPC of format 6.
pub fn format6_code(op: u16) -> u16
    ensures { result ≡ Spec.format6_code op }
{
    op / 16 % 4
}

// COUNT of format 6, or its number.
pub fn count(op: u16) -> u16
    ensures { result ≡ Spec.count op }
{
    op % 16 + 1
}

// OPC of format 9.
pub fn format9_code(op: u16) -> u16
    ensures { result ≡ Spec.format9_code op }
{
    op / 512 % 8
}

// OFFSET of SOB.
pub fn offset(op: u16) -> u16
    ensures { result ≡ Spec.offset op }
{
    op % 64
}

// OPC of format 2.
pub fn format2_code(op: u16) -> u16
    ensures { result ≡ Spec.format2_code op }
{
    op / 8
}

// REG of format 2.
pub fn only_register(op: u16) -> u16
    ensures { result ≡ Spec.only_register op }
{
    op % 8
}

// OPC of format 4.
pub fn format4_code(op: u16) -> u16
    ensures { result ≡ Spec.format4_code op }
{
    op / 64
}

// ARG of format 4.
pub fn argument(op: u16) -> u16
    ensures { result ≡ Spec.argument op }
{
    op % 64
}

// OPC of format 8.
pub fn format8_code(op: u16) -> u16
    ensures { result ≡ Spec.format8_code op }
{
    op / 64 % 8
}

// SRC of format 8, a register.
pub fn block_source(op: u16) -> u16
    ensures { result ≡ Spec.block_source op }
{
    op / 8 % 8
}

// DST of format 8, a register.
pub fn block_destination(op: u16) -> u16
    ensures { result ≡ Spec.block_destination op }
{
    op % 8
}

// OPC of format 10.
pub fn high_digit(op: u16) -> u16
    ensures { result ≡ Spec.high_digit op }
{
    op / 4096
}
