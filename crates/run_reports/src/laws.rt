//! What a report depends on, as the contract of a function that does nothing.

ghost use Rattle.std.specs.Prelude.{◌≡◌, ℕ, List};
ghost use Rattle.flat_machine.specs.declared.config.Config.{Config};
ghost use Rattle.machine_steps.specs.elf_image.Images.{ImageContents};
ghost use Rattle.steps.specs.declared.step.Step.{Step};
ghost use Rattle.run_reports.specs.RunReports.{IsReportOf};

/// The text of a report and its exit status depend only on the machine's size, the image and the steps. So a saved
/// trace is enough to report its run.
pub fn steps_have_one_report()
    ensures { (c : Config) (image : ImageContents) (steps : List Step) (text other : List ℕ) (status another : ℕ) →
        IsReportOf c image steps text status →
        IsReportOf c image steps other another → (text ≡ other) × (status ≡ another) }
{}
