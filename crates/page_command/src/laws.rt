//! What holds of all pages. Each law is the contract of a function that does nothing.

ghost use Rattle.page_command.specs.Laws.{ChangesLeadToViews, NoTagBegins, OpeningIsShown, PicturesShowPlaces};
ghost use Rattle.page_command.specs.Laws.{PicturesShowProcessors, PicturesShowWords, ViewsAreOfMachines};

/// The opening line, put on a blank view, gives the view of the machine. The changes of the first steps that it takes
/// next, put on that view, give the view of the machine after these steps.
pub fn changes_lead_to_views()
    ensures opening { OpeningIsShown }
    ensures steps { ChangesLeadToViews }
    ensures machines { ViewsAreOfMachines }
{}

/// The view of a machine that a picture draws (`view_of` of the crate `machine_views`) shows the same as the view of a
/// page: of each processor its `pc`, its status and the word of its open reference, of each place its requests, records
/// and replies in their order, and of each word that it shows the value.
pub fn pictures_show_the_same()
    ensures processors { PicturesShowProcessors }
    ensures places { PicturesShowPlaces }
    ensures words { PicturesShowWords }
{}

/// No tag begins in escaped text, so the data of a page ends nowhere before its end.
pub fn no_tag_begins()
    ensures { NoTagBegins }
{}
