//! What holds of the messages of every network, as the contract of a function that does nothing. The function calls the
//! laws of the wires that its proof needs.

ghost use Rattle.network_theory.specs.Paths.{EmptyNetworksKeepToPaths, InjectingKeepsToPaths, MovingDownKeepsToPaths};
ghost use Rattle.network_theory.specs.Paths.{MovingUpKeepsToPaths, OthersDoNotCount, RepliesArrive, RequestsArrive};
ghost use Rattle.network_theory.specs.Paths.{ServingKeepsToPaths, TakingKeepsToPaths};

use omega_wires::laws;

/// Messages keep to their paths: a message to or from a module is always on its leader's path to that module. This
/// holds of an empty network, and each move of a message keeps it. So a request arrives at the module that has its
/// word, and a reply at its processor.
pub fn messages_keep_to_paths()
    ensures begins { EmptyNetworksKeepToPaths }
    ensures others { OthersDoNotCount }
    ensures injected { InjectingKeepsToPaths }
    ensures up { MovingUpKeepsToPaths }
    ensures down { MovingDownKeepsToPaths }
    ensures served { ServingKeepsToPaths }
    ensures taken { TakingKeepsToPaths }
    ensures requests { RequestsArrive }
    ensures replies { RepliesArrive }
{
    laws::path_ends_at_the_module();
    laws::replies_go_back_the_same_way();
}
