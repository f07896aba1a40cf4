/// How many bytes a page has. RISC-V Privileged Architecture 1.12, section 4.3.1.
pub const PAGE_BYTES: u32 = 4096;
