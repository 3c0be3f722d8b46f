//! What a run depends on. Each law is the contract of a function that does nothing.

ghost use Rattle.std.specs.Prelude.{◌≡◌, ℕ, List};
ghost use Rattle.flat_machine.specs.declared.config.Config.{Config};
ghost use Rattle.machine_steps.specs.steps.declared.step.Step.{Step};
ghost use Rattle.run_reports.specs.RunReports.{IsReportedRun};
ghost use Rattle.command_io.specs.Links.{known_input};
ghost use Rattle.run_command.specs.SweepRuns.{by_sweep, sweep_run, without_log};

/// The steps of a run by the sweep, its report and its exit status depend only on the machine's size, the budget and
/// the bytes of the image's file. So each run of the same input is the same.
pub fn runs_have_one_report()
    ensures { (c : Config) (budget : ℕ) (file : List ℕ) (steps others : List Step) (text other : List ℕ)
        (status another : ℕ) →
        IsReportedRun (by_sweep (sweep_run c budget (known_input file))) steps text status →
        IsReportedRun (by_sweep (sweep_run c budget (known_input file))) others other another →
        (steps ≡ others) × (text ≡ other) × (status ≡ another) }
{
    elf_image::laws::input_means_one_layout();
    schedules::laws::runs_have_one_log();
    run_reports::laws::steps_have_one_report();
}

/// A run by the sweep that keeps no log has the same steps, the same report and the same exit status as one that keeps
/// it, whatever their budgets, if both are over.
pub fn unlogged_runs_have_the_same_report()
    ensures { (c : Config) (budget larger : ℕ) (file : List ℕ) (steps others : List Step) (text other : List ℕ)
        (status another : ℕ) →
        IsReportedRun (by_sweep (sweep_run c budget (known_input file))) steps text status →
        IsReportedRun (without_log (sweep_run c larger (known_input file))) others other another →
        (steps ≡ others) × (text ≡ other) × (status ≡ another) }
{
    elf_image::laws::input_means_one_layout();
    schedules::laws::runs_have_one_log();
    run_reports::laws::steps_have_one_report();
}
