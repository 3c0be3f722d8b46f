//! What random runs and hunts depend on. Each law is the contract of a function that does nothing, or that calls
//! another law.

ghost use Rattle.std.specs.Prelude.{◌≡◌, ℕ, List};
ghost use Rattle.flat_machine.specs.declared.config.Config.{Config};
ghost use Rattle.elf_image.specs.Images.{ImageContents};
ghost use Rattle.machine_log.specs.Logs.{Log};
ghost use Rattle.schedules.specs.declared.sweeping.SweepEnd.{SweepEnd};
ghost use Rattle.command_io.specs.Links.{known_input};
ghost use Rattle.hunt_command.specs.declared.command.Hunt.{Hunt};
ghost use Rattle.hunt_command.specs.declared.policy.Policy.{Policy};
ghost use Rattle.hunt_command.specs.Findings.{FindingState};
ghost use Rattle.hunt_command.specs.Hunts.{HasFound, asked_hunt};
ghost use Rattle.hunt_command.specs.Runs.{IsRandomRun};

/// The steps of a random run depend only on the machine's size, the image, the run's number and the policy. So the
/// same number gives the same run.
pub fn random_runs_have_one_log()
    ensures { (c : Config) (image : ImageContents) (number : ℕ) (policy : Policy) (end other : SweepEnd)
        (first second : Log) →
        IsRandomRun c image number policy end first → IsRandomRun c image number policy other second →
        first.steps ≡ second.steps }
{}

/// What a hunt finds depends only on the machine's size, the runs, the observed words and the bytes of the image's
/// file. So what it prints does not depend on how many threads take the runs.
pub fn hunts_find_the_same()
    ensures { (c : Config) (hunt : Hunt) (file : List ℕ) (image second : ImageContents)
        (found other : List FindingState) (unfinished others : List ℕ) (greatest another : ℕ) →
        HasFound (asked_hunt c hunt (known_input file)) image found unfinished greatest →
        HasFound (asked_hunt c hunt (known_input file)) second other others another →
        (found ≡ other) × (unfinished ≡ others) × (greatest ≡ another) }
{
    elf_image::laws::input_means_one_layout();
}
