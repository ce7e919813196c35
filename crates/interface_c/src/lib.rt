// The calls of `interface` for programs in other languages to link: `rt lib interface_c` writes the static library. Each export is the
// call of its name and promises what that does. include/ilstrovan.h has the C declarations.
#![tactic(auto)]

ghost use Rattle.std.specs.Prelude.{◌≡◌, List, [], ◌∷◌};
ghost use Rattle.calls.specs.Calls.{check_number, pack_number, pack_output, start_number, start_table};
ghost use Rattle.calls.specs.Calls.{audit_answer, pass_answer, pass_table, pass_note, run_answer, run_table, page_number, page_slice};
ghost use Rattle.calls.specs.Calls.{take_back_answer, take_back_table};
ghost use Rattle.calls.specs.Desks.{desks_answer, desks_table};
ghost use Rattle.interface.specs.Numbers.{audit_numbers, pass_numbers, run_numbers, take_back_numbers, desks_numbers, queue};

#[unsafe(no_mangle)]
pub extern "C" fn ilstrovan_check(file: &[u8]) -> u8
    ensures { result ≡ check_number file.now }
{
    interface::ilstrovan_check(file)
}

#[unsafe(no_mangle)]
pub extern "C" fn ilstrovan_pack(file: &[u8], output: &mut [u8]) -> u8
    ensures value { result ≡ pack_number file.now output.old }
    ensures output_after { output.new ≡ pack_output file.now output.old }
{
    interface::ilstrovan_pack(file, output)
}

#[unsafe(no_mangle)]
pub extern "C" fn ilstrovan_start(file: &[u8], table: &mut [u32]) -> u8
    ensures value { result ≡ start_number file.now table.old }
    ensures table_after { table.new ≡ start_table file.now table.old }
{
    interface::ilstrovan_start(file, table)
}

#[unsafe(no_mangle)]
pub extern "C" fn ilstrovan_pass(
    file: &[u8],
    table: &mut [u32],
    share: u32,
    note: &mut [u16],
    answer: &mut [u64; 5],
) -> u8
    ensures value { result ≡ (pass_answer file.now table.old share note.old).refusal }
    ensures table_after { table.new ≡ pass_table file.now table.old share note.old }
    ensures note_after { note.new ≡ pass_note file.now table.old share note.old }
    ensures answer_after { answer.new ≡ pass_numbers (pass_answer file.now table.old share note.old) }
{
    interface::ilstrovan_pass(file, table, share, note, answer)
}

#[unsafe(no_mangle)]
pub extern "C" fn ilstrovan_take_back(
    file: &[u8],
    table: &mut [u32],
    share: u32,
    note: &[u16],
    answer: &mut [u64; 1],
) -> u8
    ensures value { result ≡ (take_back_answer file.now table.old share note.now).refusal }
    ensures table_after { table.new ≡ take_back_table file.now table.old share note.now }
    ensures answer_after { answer.new ≡ take_back_numbers (take_back_answer file.now table.old share note.now) }
{
    interface::ilstrovan_take_back(file, table, share, note, answer)
}

#[unsafe(no_mangle)]
pub extern "C" fn ilstrovan_run(
    file: &[u8],
    table: &mut [u32],
    budget: u32,
    excess: u16,
    answer: &mut [u64; 6],
) -> u8
    ensures value { result ≡ (run_answer file.now table.old budget excess).refusal }
    ensures table_after { table.new ≡ run_table file.now table.old budget excess }
    ensures answer_after { answer.new ≡ run_numbers (run_answer file.now table.old budget excess) }
{
    interface::ilstrovan_run(file, table, budget, excess, answer)
}

#[unsafe(no_mangle)]
pub extern "C" fn ilstrovan_audit(
    file: &[u8],
    table: &[u32],
    share: u32,
    answer: &mut [u64; 3],
) -> u8
    ensures value { result ≡ (audit_answer file.now table.now share).refusal }
    ensures answer_after { answer.new ≡ audit_numbers (audit_answer file.now table.now share) }
{
    interface::ilstrovan_audit(file, table, share, answer)
}

#[unsafe(no_mangle)]
pub extern "C" fn ilstrovan_page(file: &[u8], table: &[u32], share: u32, page: &mut [u8]) -> u8
    ensures value { result ≡ page_number file.now table.now share page.old }
    ensures page_after { page.new ≡ page_slice file.now table.now share page.old }
{
    interface::ilstrovan_page(file, table, share, page)
}

#[unsafe(no_mangle)]
pub extern "C" fn ilstrovan_desks(
    file_0: &[u8],
    table_0: &mut [u32],
    file_1: &[u8],
    table_1: &mut [u32],
    file_2: &[u8],
    table_2: &mut [u32],
    file_3: &[u8],
    table_3: &mut [u32],
    file_4: &[u8],
    table_4: &mut [u32],
    file_5: &[u8],
    table_5: &mut [u32],
    file_6: &[u8],
    table_6: &mut [u32],
    file_7: &[u8],
    table_7: &mut [u32],
    count: u32,
    allowance: u32,
    budgets: &[u32; 8],
    excesses: &[u16; 8],
    answer: &mut [u64; 57],
) -> u8
    ensures value { result ≡ (desks_answer (queue (file_0.now ∷ file_1.now ∷ file_2.now ∷ file_3.now ∷ file_4.now ∷ file_5.now ∷ file_6.now ∷ file_7.now ∷ []) (table_0.old ∷ table_1.old ∷ table_2.old ∷ table_3.old ∷ table_4.old ∷ table_5.old ∷ table_6.old ∷ table_7.old ∷ []) budgets.now excesses.now 0) count allowance).refusal }
    ensures table_0_after { table_0.new ≡ desks_table (queue (file_0.now ∷ file_1.now ∷ file_2.now ∷ file_3.now ∷ file_4.now ∷ file_5.now ∷ file_6.now ∷ file_7.now ∷ []) (table_0.old ∷ table_1.old ∷ table_2.old ∷ table_3.old ∷ table_4.old ∷ table_5.old ∷ table_6.old ∷ table_7.old ∷ []) budgets.now excesses.now 0) count allowance 0 }
    ensures table_1_after { table_1.new ≡ desks_table (queue (file_0.now ∷ file_1.now ∷ file_2.now ∷ file_3.now ∷ file_4.now ∷ file_5.now ∷ file_6.now ∷ file_7.now ∷ []) (table_0.old ∷ table_1.old ∷ table_2.old ∷ table_3.old ∷ table_4.old ∷ table_5.old ∷ table_6.old ∷ table_7.old ∷ []) budgets.now excesses.now 0) count allowance 1 }
    ensures table_2_after { table_2.new ≡ desks_table (queue (file_0.now ∷ file_1.now ∷ file_2.now ∷ file_3.now ∷ file_4.now ∷ file_5.now ∷ file_6.now ∷ file_7.now ∷ []) (table_0.old ∷ table_1.old ∷ table_2.old ∷ table_3.old ∷ table_4.old ∷ table_5.old ∷ table_6.old ∷ table_7.old ∷ []) budgets.now excesses.now 0) count allowance 2 }
    ensures table_3_after { table_3.new ≡ desks_table (queue (file_0.now ∷ file_1.now ∷ file_2.now ∷ file_3.now ∷ file_4.now ∷ file_5.now ∷ file_6.now ∷ file_7.now ∷ []) (table_0.old ∷ table_1.old ∷ table_2.old ∷ table_3.old ∷ table_4.old ∷ table_5.old ∷ table_6.old ∷ table_7.old ∷ []) budgets.now excesses.now 0) count allowance 3 }
    ensures table_4_after { table_4.new ≡ desks_table (queue (file_0.now ∷ file_1.now ∷ file_2.now ∷ file_3.now ∷ file_4.now ∷ file_5.now ∷ file_6.now ∷ file_7.now ∷ []) (table_0.old ∷ table_1.old ∷ table_2.old ∷ table_3.old ∷ table_4.old ∷ table_5.old ∷ table_6.old ∷ table_7.old ∷ []) budgets.now excesses.now 0) count allowance 4 }
    ensures table_5_after { table_5.new ≡ desks_table (queue (file_0.now ∷ file_1.now ∷ file_2.now ∷ file_3.now ∷ file_4.now ∷ file_5.now ∷ file_6.now ∷ file_7.now ∷ []) (table_0.old ∷ table_1.old ∷ table_2.old ∷ table_3.old ∷ table_4.old ∷ table_5.old ∷ table_6.old ∷ table_7.old ∷ []) budgets.now excesses.now 0) count allowance 5 }
    ensures table_6_after { table_6.new ≡ desks_table (queue (file_0.now ∷ file_1.now ∷ file_2.now ∷ file_3.now ∷ file_4.now ∷ file_5.now ∷ file_6.now ∷ file_7.now ∷ []) (table_0.old ∷ table_1.old ∷ table_2.old ∷ table_3.old ∷ table_4.old ∷ table_5.old ∷ table_6.old ∷ table_7.old ∷ []) budgets.now excesses.now 0) count allowance 6 }
    ensures table_7_after { table_7.new ≡ desks_table (queue (file_0.now ∷ file_1.now ∷ file_2.now ∷ file_3.now ∷ file_4.now ∷ file_5.now ∷ file_6.now ∷ file_7.now ∷ []) (table_0.old ∷ table_1.old ∷ table_2.old ∷ table_3.old ∷ table_4.old ∷ table_5.old ∷ table_6.old ∷ table_7.old ∷ []) budgets.now excesses.now 0) count allowance 7 }
    ensures answer_after { answer.new ≡ desks_numbers (desks_answer (queue (file_0.now ∷ file_1.now ∷ file_2.now ∷ file_3.now ∷ file_4.now ∷ file_5.now ∷ file_6.now ∷ file_7.now ∷ []) (table_0.old ∷ table_1.old ∷ table_2.old ∷ table_3.old ∷ table_4.old ∷ table_5.old ∷ table_6.old ∷ table_7.old ∷ []) budgets.now excesses.now 0) count allowance) }
{
    interface::ilstrovan_desks(
        file_0, table_0, file_1, table_1, file_2, table_2, file_3, table_3, file_4, table_4,
        file_5, table_5, file_6, table_6, file_7, table_7, count, allowance, budgets, excesses,
        answer,
    )
}
