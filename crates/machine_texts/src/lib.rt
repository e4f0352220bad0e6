//! Whole descriptions of machines, as texts for tests.
#![tactic(auto)]

/// SPARC version 8, without floating point.
pub const SPARC: &str = "fields of word (32)
  op 30:31 disp30 0:29 rd 25:29 op2 22:24 imm22 0:21 disp22 0:21
  a 29:29 cond 25:28 op3 19:24 rs1 14:18 i 13:13 rs2 0:4 simm13 0:12
patterns
  arith [ add and or xor sub andn orn xnor
          addx _ umul smul subx _ udiv sdiv
          addcc andcc orcc xorcc subcc andncc orncc xnorcc
          addxcc _ umulcc smulcc subxcc _ udivcc sdivcc ]
    is op = 2 & op3 = {0 to 31}
  shift [ sll srl sra ] is op = 2 & op3 = {0x25 to 0x27}
  window [ save restore ] is op = 2 & op3 = {0x3c 0x3d}
  loads [ ld ldub lduh ldd ldsb ldsh ldstub swap ]
    is op = 3 & op3 = {0 1 2 3 9 10 13 15}
  stores [ st stb sth std ] is op = 3 & op3 = {4 to 7}
  branch [ bn be ble bl bleu bcs bneg bvs ba bne bg bge bgu bcc bpos bvc ]
    is op = 0 & op2 = 2 & a = 0 & cond = {0 to 15}
  abranch [ bn_a be_a ble_a bl_a bleu_a bcs_a bneg_a bvs_a
            ba_a bne_a bg_a bge_a bgu_a bcc_a bpos_a bvc_a ]
    is op = 0 & op2 = 2 & a = 1 & cond = {0 to 15}
constructors
  rmode(rs2) : roi is i = 0 & rs2
  imode(simm13!) : roi is i = 1 & simm13
  arith(rs1, roi, rd) is arith & rs1 & roi & rd
  shift(rs1, roi, rd) is shift & rs1 & roi & rd
  jmpl(rs1, roi, rd) is op = 2 & op3 = 0x38 & rs1 & roi & rd
  rett(rs1, roi) is op = 2 & op3 = 0x39 & rs1 & roi
  window(rs1, roi, rd) is window & rs1 & roi & rd
  loads(rs1, roi, rd) is loads & rs1 & roi & rd
  stores(rd, rs1, roi) is stores & rd & rs1 & roi
  branch(target) { target = L + 4 * disp22! } is L: branch & disp22
  abranch(target) { target = L + 4 * disp22! } is L: abranch & disp22
  call(target) { target = L + 4 * disp30! } is L: op = 1 & disp30
  sethi(val, rd) { val@[10:31] = imm22, val@[0:9] = 0 }
    is op = 0 & op2 = 4 & rd & imm22
  unimp(imm22) is op = 0 & op2 = 0 & imm22
";

/// MIPS I, without coprocessors.
pub const MIPS: &str = "fields of word (32)
  op 26:31 rs 21:25 rt 16:20 rd 11:15 shamt 6:10 funct 0:5
  imm 0:15 target 0:25
patterns
  sh [ sll _ srl sra ] is op = 0 & funct = {0 to 3}
  shv [ sllv _ srlv srav ] is op = 0 & funct = {4 to 7}
  trap [ syscall break ] is op = 0 & funct = {12 13}
  from [ mfhi mflo ] is op = 0 & funct = {16 18}
  into [ mthi mtlo ] is op = 0 & funct = {17 19}
  muldiv [ mult multu div divu ] is op = 0 & funct = {24 to 27}
  three [ add addu sub subu and or xor nor _ _ slt sltu ]
    is op = 0 & funct = {32 to 43}
  jump [ j jal ] is op = {2 3}
  btwo [ beq bne ] is op = {4 5}
  bone [ blez bgtz ] is op = {6 7}
  regimm [ bltz bgez bltzal bgezal ] is op = 1 & rt = {0 1 16 17}
  simm [ addi addiu slti sltiu ] is op = {8 to 11}
  uimm [ andi ori xori ] is op = {12 to 14}
  memory [ lb lh lwl lw lbu lhu lwr _ sb sh_w swl sw _ _ swr ]
    is op = {32 to 46}
constructors
  sh(rd, rt, shamt) is sh & rd & rt & shamt
  shv(rd, rt, rs) is shv & rd & rt & rs
  jr(rs) is op = 0 & funct = 8 & rs
  jalr(rd, rs) is op = 0 & funct = 9 & rd & rs
  trap() is trap
  from(rd) is from & rd
  into(rs) is into & rs
  muldiv(rs, rt) is muldiv & rs & rt
  three(rd, rs, rt) is three & rd & rs & rt
  jump(target) is jump & target
  btwo(rs, rt, dest) { dest = L + 4 + 4 * imm! } is L: btwo & rs & rt & imm
  bone(rs, dest) { dest = L + 4 + 4 * imm! } is L: bone & rs & imm
  regimm(rs, dest) { dest = L + 4 + 4 * imm! } is L: regimm & rs & imm
  simm(rt, rs, imm!) is simm & rt & rs & imm
  uimm(rt, rs, imm) is uimm & rt & rs & imm
  lui(rt, imm) is op = 15 & rt & imm
  memory(rt, imm!, rs) is memory & rt & imm & rs
";

/// A part of the Intel 80486 with operands of 8 and of 32 bits.
pub const I486: &str = "fields of opcode (8) opc 0:7 lo3 0:2 hi5 3:7 two 6:7 alu 3:5 hi4 4:7 cc 0:3
fields of modrm (8) mod 6:7 reg 3:5 rm 0:2
fields of sibtok (8) ss 6:7 index 3:5 base 0:2
fields of imm8 (8) i8 0:7
fields of imm16 (16 little) i16 0:15
fields of imm32 (32 little) i32 0:31
patterns
  alop [ add or adc sbb and sub xor cmp ] is alu = {0 to 7}
  imop [ addi ori adci sbbi andi subi xori cmpi ] is reg = {0 to 7}
  shop [ rol ror rcl rcr shl shr sar ] is reg = {0 1 2 3 4 5 7}
  unop [ not neg mul imul div idiv ] is reg = {2 to 7}
  byop [ inc_m8 dec_m8 ] is reg = {0 1}
  ffop [ inc_m dec_m call_m jmp_m push_m ] is reg = {0 1 2 4 6}
  one [ pushad popad cwde cdq pushfd popfd sahf lahf
        movsb movsd cmpsb cmpsd stosb stosd lodsb lodsd scasb scasd
        leave cmc clc stc cld std ]
    is opc = {0x60 0x61 0x98 0x99 0x9c 0x9d 0x9e 0x9f
              0xa4 0xa5 0xa6 0xa7 0xaa 0xab 0xac 0xad 0xae 0xaf
              0xc9 0xf5 0xf8 0xf9 0xfc 0xfd}
  moffs [ ld_al ld_eax st_al st_eax ] is opc = {0xa0 to 0xa3}
  loops [ loopne loope loop jecxz ] is opc = {0xe0 to 0xe3}
constructors
  alop() : al is alop
  imop() : im is imop
  shop() : sh is shop
  unop() : un is unop
  abs(i32) : mem is mod = 0 & rm = 5 ; i32
  at(rm) : mem is mod = 0 & (rm < 4 | rm > 5) & rm
  at8(rm, i8!) : mem is mod = 1 & rm != 4 & rm ; i8
  at32(rm, i32!) : mem is mod = 2 & rm != 4 & rm ; i32
  indexed(base, index, ss) : mem
    is mod = 0 & rm = 4 ; base != 5 & base & index != 4 & index & ss
  indexed8(base, index, ss, i8!) : mem
    is mod = 1 & rm = 4 ; base & index != 4 & index & ss ; i8
  indexed32(base, index, ss, i32!) : mem
    is mod = 2 & rm = 4 ; base & index != 4 & index & ss ; i32
  based(base) : mem is mod = 0 & rm = 4 ; base != 5 & base & index = 4
  based8(base, i8!) : mem is mod = 1 & rm = 4 ; base & index = 4 ; i8
  based32(base, i32!) : mem is mod = 2 & rm = 4 ; base & index = 4 ; i32
  scaled(index, ss, i32) : mem
    is mod = 0 & rm = 4 ; base = 5 & index != 4 & index & ss ; i32
  bare(i32) : mem is mod = 0 & rm = 4 ; base = 5 & index = 4 ; i32
  r(rm) : ea is mod = 3 & rm
  m(mem) : ea is mem
  alu_mr8(al, ea, reg) is two = 0 & al & lo3 = 0 ; reg ... & ea
  alu_mr(al, ea, reg) is two = 0 & al & lo3 = 1 ; reg ... & ea
  alu_rm8(al, reg, ea) is two = 0 & al & lo3 = 2 ; reg ... & ea
  alu_rm(al, reg, ea) is two = 0 & al & lo3 = 3 ; reg ... & ea
  alu_al(al, i8) is two = 0 & al & lo3 = 4 ; i8
  alu_ax(al, i32) is two = 0 & al & lo3 = 5 ; i32
  alu_mi8(im, ea, i8) is opc = 0x80 ; im ... & ea ; i8
  alu_mi(im, ea, i32) is opc = 0x81 ; im ... & ea ; i32
  alu_ms(im, ea, i8!) is opc = 0x83 ; im ... & ea ; i8
  inc(lo3) is hi5 = 8 & lo3
  dec(lo3) is hi5 = 9 & lo3
  push(lo3) is hi5 = 10 & lo3
  pop(lo3) is hi5 = 11 & lo3
  jcc8(cc, dest) { dest = L + i8! } is hi4 = 7 & cc ; i8 ; L: epsilon
  jcc32(cc, dest) { dest = L + i32! }
    is opc = 0x0f ; hi4 = 8 & cc ; i32 ; L: epsilon
  test_mr8(ea, reg) is opc = 0x84 ; reg ... & ea
  test_mr(ea, reg) is opc = 0x85 ; reg ... & ea
  xchg_mr8(ea, reg) is opc = 0x86 ; reg ... & ea
  xchg_mr(ea, reg) is opc = 0x87 ; reg ... & ea
  mov_mr8(ea, reg) is opc = 0x88 ; reg ... & ea
  mov_mr(ea, reg) is opc = 0x89 ; reg ... & ea
  mov_rm8(reg, ea) is opc = 0x8a ; reg ... & ea
  mov_rm(reg, ea) is opc = 0x8b ; reg ... & ea
  lea(reg, mem) is opc = 0x8d ; reg ... & mem
  nop() is opc = 0x90
  mov_i8(lo3, i8) is hi5 = 22 & lo3 ; i8
  mov_i32(lo3, i32) is hi5 = 23 & lo3 ; i32
  ret_n(i16) is opc = 0xc2 ; i16
  ret() is opc = 0xc3
  int3() is opc = 0xcc
  int(i8) is opc = 0xcd ; i8
  call(dest) { dest = L + i32! } is opc = 0xe8 ; i32 ; L: epsilon
  jmp(dest) { dest = L + i32! } is opc = 0xe9 ; i32 ; L: epsilon
  jmp8(dest) { dest = L + i8! } is opc = 0xeb ; i8 ; L: epsilon
  hlt() is opc = 0xf4
  test_i8(ea, i8) is opc = 0xf6 ; reg = 0 ... & ea ; i8
  test_i32(ea, i32) is opc = 0xf7 ; reg = 0 ... & ea ; i32
  unary8(un, ea) is opc = 0xf6 ; un ... & ea
  unary(un, ea) is opc = 0xf7 ; un ... & ea
  byop(ea) is opc = 0xfe ; byop ... & ea
  ffop(ea) is opc = 0xff ; ffop ... & ea
  shift8_i(sh, ea, i8) is opc = 0xc0 ; sh ... & ea ; i8
  shift_i(sh, ea, i8) is opc = 0xc1 ; sh ... & ea ; i8
  shift8_1(sh, ea) is opc = 0xd0 ; sh ... & ea
  shift_1(sh, ea) is opc = 0xd1 ; sh ... & ea
  shift8_cl(sh, ea) is opc = 0xd2 ; sh ... & ea
  shift_cl(sh, ea) is opc = 0xd3 ; sh ... & ea
  movzx8(reg, ea) is opc = 0x0f ; opc = 0xb6 ; reg ... & ea
  movzx16(reg, ea) is opc = 0x0f ; opc = 0xb7 ; reg ... & ea
  movsx8(reg, ea) is opc = 0x0f ; opc = 0xbe ; reg ... & ea
  movsx16(reg, ea) is opc = 0x0f ; opc = 0xbf ; reg ... & ea
  bswap(lo3) is opc = 0x0f ; hi5 = 25 & lo3
  one() is one
  moffs(i32) is moffs ; i32
  loops(dest) { dest = L + i8! } is loops ; i8 ; L: epsilon
  push_i32(i32) is opc = 0x68 ; i32
  push_i8(i8!) is opc = 0x6a ; i8
  pop_m(ea) is opc = 0x8f ; reg = 0 ... & ea
  xchg_ax(lo3) is hi5 = 18 & lo3 != 0 & lo3
  test_al(i8) is opc = 0xa8 ; i8
  test_ax(i32) is opc = 0xa9 ; i32
  mov_mi8(ea, i8) is opc = 0xc6 ; reg = 0 ... & ea ; i8
  mov_mi(ea, i32) is opc = 0xc7 ; reg = 0 ... & ea ; i32
  imul_i32(reg, ea, i32) is opc = 0x69 ; reg ... & ea ; i32
  imul_i8(reg, ea, i8!) is opc = 0x6b ; reg ... & ea ; i8
  imul_rm(reg, ea) is opc = 0x0f ; opc = 0xaf ; reg ... & ea
  setcc(cc, ea) is opc = 0x0f ; hi4 = 9 & cc ; ea
";
