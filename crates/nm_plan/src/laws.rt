//! Laws of the decisions of a run. Each function does nothing, and its contract is the law.

ghost use Rattle.std.specs.Prelude.{ℕ, List, [], ◌≡◌, ◌<◌, map, slice_get, Some};
ghost use Rattle.std.specs.List.{zip};
ghost use Rattle.nm_types.specs.declared.errno.Errno.TheVariants.{Enomem};
ghost use Rattle.nm_types.specs.declared.page.Page.{Page};
ghost use Rattle.nm_types.specs.declared.request.Class.{Class};
ghost use Rattle.nm_types.specs.declared.request.Class.TheVariants.{Move};
ghost use Rattle.nm_model.specs.definitions.Status.{code};
ghost use Rattle.nm_model.specs.definitions.Decide.{decide};
ghost use Rattle.nm_plan.specs.Closed.{new_pages, taking, lucky, status_by, IsNew};

/// Of the pages that are to move, each counted once, the k-th takes the k-th free frame, as long as there are frames.
pub fn kth_page_takes_kth_frame()
    ensures { (classes : List Class) (front : List ℕ) (target : ℕ) →
        (decide classes [] front target).taken ≡ map taking (zip (new_pages [] classes) front) }
{}

/// A request has the status of its page: the target if the page found a frame, and -12 (ENOMEM) if not. So all requests
/// for one page have the same status.
pub fn statuses_go_by_page()
    ensures status { (classes : List Class) (front : List ℕ) (target : ℕ) →
        (decide classes [] front target).statuses
        ≡ map (status_by (lucky classes front) target) classes }
    ensures classes { (classes : List Class) (front : List ℕ) (target i j : ℕ) (page : Page)
        (from other : ℕ) →
        slice_get classes i ≡ Some (Move page from) →
        slice_get classes j ≡ Some (Move page other) →
        slice_get (decide classes [] front target).statuses i
        ≡ slice_get (decide classes [] front target).statuses j }
{}

/// After the first request that gets -12 (ENOMEM), every request for a page not named before gets it too.
pub fn none_is_free_again()
    ensures { (classes : List Class) (front : List ℕ) (target i j : ℕ) (first page : Page)
        (from other : ℕ) →
        i < j →
        slice_get classes i ≡ Some (Move first from) →
        slice_get (decide classes [] front target).statuses i ≡ Some (code Enomem) →
        slice_get classes j ≡ Some (Move page other) →
        IsNew classes j page →
        slice_get (decide classes [] front target).statuses j ≡ Some (code Enomem) }
{}
