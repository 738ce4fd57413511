//! The laws of the graph, as contracts of functions that do nothing. `Program` is code with what its
//! judging needs; an image, a system and a timing give one (`program_of`).

ghost use Rattle.elf_image.specs.Image.{ImageData};
ghost use Rattle.rv32_machine.specs.Code.{CodeFits, insn_at};
ghost use Rattle.flow_graph.specs.declared.flow.Flow.{Flow};
ghost use Rattle.flow_graph.specs.Graph.{Program};
ghost use Rattle.flow_graph.specs.Judging.{IsGraph};
ghost use Rattle.flow_graph.specs.Standing.{StepsFollowEdges};
ghost use Rattle.flow_graph.specs.Walks.{IsFaultless, EcallsServe, NoneIsStuck, EntriesStand, ServicesGoOn, StepsKeepBytes, WalksStayOnGraph};

/// The law of the graph: a context that stands at a node without a fault and makes a step that is no
/// unpaired return follows an edge of the node, and stands at the node where the edge leads.
pub fn steps_follow_edges()
    ensures { (program : Program) → CodeFits program.code → StepsFollowEdges program }
{}

/// At an ECALL stands a service of the table, and x17 and x10 hold its number and its argument.
pub fn ecalls_serve()
    ensures { (program : Program) → EcallsServe program }
{}

/// A node without a fault is an ECALL, or its instruction can be executed.
pub fn none_is_stuck()
    ensures { (program : Program) → NoneIsStuck program }
{}

/// A context that begins stands at its entry's node, with any registers.
pub fn entries_stand()
    ensures { (program : Program) → EntriesStand program }
{}

/// A service that goes on leads to the node of its one edge, with any registers.
pub fn services_go_on()
    ensures { (program : Program) → ServicesGoOn program }
{}

/// Memory holds bytes after a step, if it did before.
pub fn steps_keep_bytes()
    ensures { (program : Program) → CodeFits program.code → StepsKeepBytes program.code }
{}

/// Every context of a program without a fault stays on the graph, from its entry on.
pub fn walks_stay_on_graph()
    ensures { (program : Program) → IsFaultless program → CodeFits program.code
        → WalksStayOnGraph program }
{}

/// The instructions of an image name only registers that there are.
pub fn images_fit()
    ensures { (image : ImageData) → CodeFits (insn_at image) }
{}

/// No node of a program with a graph has a fault.
pub fn graphs_are_faultless()
    ensures { (program : Program) (flow : Flow) → IsGraph program flow → IsFaultless program }
{}
