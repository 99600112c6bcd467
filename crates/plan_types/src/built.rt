//! A compiled model.
ghost use Rattle.std.specs.Prelude.{◌≡◌, true, length};
ghost use Rattle.std.specs.List.{list_all};
ghost use Rattle.plan_graph.specs.declared.node.Part.TheVariants as part;
ghost use Rattle.plan_types.specs.Coded.{AllWithin, all_within_is_fact, code_count, has_code};
ghost use Rattle.plan_types.specs.Cuts.{IsCut, cut_is_fact};
ghost use Rattle.plan_types.specs.Drivers.{OneDriver, FreeInputs};
ghost use Rattle.plan_types.specs.Settle.{settles, nodes_in_order};
ghost use Rattle.plan_types.specs.Touches.{keeps_to_its_own};

use crate::plan::ValidPlan;
use rtl_ir::Design;
use rtl_pieces::Layout;
use sqlite_items::Items;
use task_eval::Code;

/// A compiled model: all that a run stands on. Each bit has one writer at most, and the inputs have none; the words are those that the
/// design is cut into; settling does not stall; the nodes of each part stand in serial order, and the code of each touches only
/// what its process reads and writes.
#[derive(Drop)]
pub struct Built {
    pub design: Design,
    /// The words of its state.
    pub layout: Layout,
    /// One code for each process, then a commit for each clocked one, in order.
    pub codes: Items<Code>,
    /// What runs once the inputs are put.
    pub settle: ValidPlan,
    /// What runs where a process fired.
    pub clocked: ValidPlan,
    /// Of each import, whether it is deemed safe: its calls are not kept.
    pub deemed: Items<bool>,
    /// The host's number of each import.
    pub ids: Items<u32>,
    ghost coded: { length codes ≡ code_count design.procs },
    ghost within: { AllWithin (length layout.words.items) (length ids) codes } by { all_within_is_fact (length layout.words.items) (length ids) codes },
    ghost deemed_each: { length deemed ≡ length design.imports },
    ghost ids_each: { length ids ≡ length design.imports },
    ghost settle_codes: { list_all (has_code design.procs (length codes)) settle.nodes ≡ true },
    ghost clocked_codes: { list_all (has_code design.procs (length codes)) clocked.nodes ≡ true },
    ghost one_driver: { OneDriver design },
    ghost free_inputs: { FreeInputs design },
    ghost is_cut: { IsCut design layout.words.items } by { cut_is_fact design layout.words.items },
    ghost settled: { settles design ≡ true },
    ghost settle_serial: { settle.nodes ≡ nodes_in_order design part.Settle },
    ghost clocked_serial: { clocked.nodes ≡ nodes_in_order design part.Clocked },
    ghost settle_keeps: { list_all (keeps_to_its_own design layout.words.items codes) settle.nodes ≡ true },
    ghost clocked_keeps: { list_all (keeps_to_its_own design layout.words.items codes) clocked.nodes ≡ true },
}
